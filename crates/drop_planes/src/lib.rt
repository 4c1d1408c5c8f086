// The call drop_planes: its reply, the work, the answer (specs/Drop.antt).
#![tactic(auto)]

ghost use Rattle.std.specs.Prelude.{◌≡◌};
ghost use Rattle.words.specs.First.{first};
ghost use Rattle.replies.specs.Reply.{number_of};
ghost use Rattle.drop_planes.specs.Drop.{is_target, drop_rows, drop_number, Drops};

use frame::header::{Header, due_length, frame_reply, read_header};
use frame::whole::{narrow, thin_frame};
use replies::Refusal;

// The width stays a number: anyone may hand in any, and an unfit one is refused with 8.
#[tactic(auto, using(crate::proofs::Fitness::drop_says), unfolding(crate::specs::Drop::drop_reply, crate::specs::Drop::drop_octets, crate::specs::Drop::drop_out))]
pub fn drop_planes(frame: &[u8], width: u8, out: &mut [u8]) -> Result<usize, Refusal>
    ensures { Drops frame.now width out.old out.new result }
{
    let h = read_header(frame);
    drop_reply(h, frame.len(), width, out.len())?;
    thin_frame(frame, h, width, out);
    Ok(due_length(narrow(h, width)))
}

#[tactic(auto, using(crate::proofs::Fitness::drop_front, replies::proofs::Answers::refuses))]
fn drop_reply(h: Header, length: usize, width: u8, room: usize) -> Result<(), Refusal>
    ensures { number_of result ≡ drop_number h length width room }
{
    frame_reply(h, length)?;
    behind_reply(h, width, room)
}

// Behind the frame's own rows: the target and the room
#[tactic(auto, unfolding(words::specs::First::first))]
fn behind_reply(h: Header, width: u8, room: usize) -> Result<(), Refusal>
    ensures { number_of result ≡ first (drop_rows h width room) }
{
    if !is_target(h, width) {
        return Err(Refusal::Target);
    }
    if room < due_length(narrow(h, width)) {
        return Err(Refusal::Room);
    }
    Ok(())
}

fn is_target(h: Header, width: u8) -> bool
    ensures { result ≡ is_target h width }
{
    (h.core..=h.width).contains(&width)
}
