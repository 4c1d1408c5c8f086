// The Recommendation's braces with two rows, where both rows are at hand. Rows of 1 and 0 are such braces too, as they are printed: SIGPK, TR, TDP and AX
// are its signals of one bit.
ghost use Rattle.std.specs.Prelude.{◌≡◌};
ghost use Rattle.words.specs.Notation.{pick};

pub fn choose<T: Copy>(t: bool, a: T, b: T) -> T
    ensures { result ≡ pick t a b }
{
    if t { a } else { b }
}
