// Whole frames: written from codewords, and thinned to fewer planes (docs/RULES.md, "The frame").
ghost use Rattle.std.specs.Prelude.{◌≡◌, ◌++◌, ◌/◌, ◌≤◌, length, drop};
ghost use Rattle.words.specs.Within.{Within};
ghost use Rattle.frame.specs.Header.{group, header_length, header_octets, header_of, due_length};
ghost use Rattle.frame.specs.Planes.{frame_of};
ghost use Rattle.frame.specs.Read.{narrowed, thinned};
ghost use Rattle.frame.specs.Sound.{SoundHeader, Sound};

use crate::header::{Header, due_length, head, header_length, is_numbered};
use crate::planes::write_planes;

pub fn write_frame(codewords: &[u8], h: Header, out: &mut [u8])
    requires { SoundHeader h × (h.groups ≡ length codewords.now / group) × (due_length h ≤ length out.old) }
    ensures { out.new ≡ frame_of h codewords.now ++ drop (due_length h) out.old }
{
    write_header(h, out);
    let n = header_length(h.edition);
    write_planes(codewords, h.width, &mut out[n..]);
}

#[tactic(auto, using(crate::proofs::Headers::fields_there, crate::proofs::Headers::number_stored, crate::proofs::Headers::fields_stored), unfolding(crate::specs::Header::header_length))]
fn write_header(h: Header, out: &mut [u8])
    requires { SoundHeader h × (header_length h.edition ≤ length out.old) }
    ensures { out.new ≡ header_octets h ++ drop (header_length h.edition) out.old }
{
    out[0] = head(h);
    out[1] = h.groups;
    if is_numbered(h.edition) {
        out[2] = h.number;
    }
}

pub fn thin_frame(frame: &[u8], h: Header, w: u8, out: &mut [u8])
    requires { (h ≡ header_of frame.now) × Sound h (length frame.now) × Within h.core h.width w × (due_length (narrowed w h) ≤ length out.old) }
    ensures { out.new ≡ thinned w frame.now ++ drop (due_length (narrowed w h)) out.old }
{
    let thin = narrow(h, w);
    let n = due_length(thin);
    out[..n].copy_from_slice(&frame[..n]);
    write_header(thin, out);
}

pub fn narrow(h: Header, w: u8) -> Header
    ensures { result ≡ narrowed w h }
{
    Header { width: w, ..h }
}
