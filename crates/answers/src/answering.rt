// Each call is made on what a line's fields say, and its answer is what stands behind the line.
use crate::codec::{decode, decode_linear, drop_planes, encode, encode_linear, level, reset};
use crate::fields::Fields;
use crate::shown::Said;
use crate::texts::{end_text, end_values, read, write};
use crate::unanswered::Unanswered;

// Whether the line asks, and then its answer stands behind what was said. An empty line and a comment ask nothing.
pub fn answer(line: &[u8], said: &mut Said) -> Result<bool, Unanswered> {
    if line.is_empty() || line[0] == b'#' {
        return Ok(false);
    }
    let mut fields = Fields::of(line);
    let call = fields.text();
    answer_call(call, fields, said)?;
    Ok(true)
}

fn answer_call(call: &[u8], fields: Fields<'_>, said: &mut Said) -> Result<(), Unanswered> {
    match call {
        b"reset" => reset(fields, said),
        b"encode" => encode(fields, said),
        b"encode_linear" => encode_linear(fields, said),
        b"decode" => decode(fields, said),
        b"decode_linear" => decode_linear(fields, said),
        b"drop" => drop_planes(fields, said),
        b"level" => level(fields, said),
        b"read" => read(fields, said),
        b"end_text" => end_text(fields, said),
        b"write" => write(fields, said),
        b"end_values" => end_values(fields, said),
        _ => Err(Unanswered::NoSuchCall),
    }
}

#[cfg(test)]
mod tests {
    use super::*;
    use crate::input::{Lines, ROOM};
    use std::test::Fail;

    // The answers of the second codec, as crates/answers/stdout has them
    #[test]
    fn lines_are_answered(rt: HostRuntime) -> Result<(), Fail> {
        let input = b"level 0 255\ndrop 6a01ff00000000 2 c1ccd7e2".as_slice();
        let mut window = [0; ROOM];
        let mut lines = Lines::of(input, &mut window);
        for said in ["0 254 126", "0 4 5201ff00"] {
            let line = lines.next().ok_or("no line")?.ok().ok_or("too long")?;
            let mut answered = Said::new();
            assert!(rt; answer(line, &mut answered).ok().ok_or("no answer")?);
            assert_eq!(rt; answered.as_slice(), said.as_bytes());
        }
        assert!(rt; lines.next().is_none());
        Ok(())
    }
}
