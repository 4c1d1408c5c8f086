// Hexadecimal digits as characters, in capitals.
ghost use Rattle.std.specs.Prelude.{◌≡◌, ◌<◌};
ghost use Rattle.sequence_writer.specs.Layout.{capital};

pub fn capital(digit: u8) -> u8
    requires { digit < 16 }
    ensures { result ≡ capital digit }
{
    b"0123456789ABCDEF"[usize::from(digit)]
}
