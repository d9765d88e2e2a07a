// The fields of a line.
ghost use Rattle.std.specs.Prelude.{◌≡◌};
ghost use Rattle.text.specs.Line.{present_if};

// A number, the way out of the function, or what is absent.
#[derive(Clone, Copy, Debug, PartialEq, Eq, Hash)]
pub enum Field {
    Number(u64),
    Leave,
    Absent,
}

pub fn present_if(present: bool, n: u64) -> Field
    ensures { result ≡ present_if present n }
{
    if present {
        Field::Number(n)
    } else {
        Field::Absent
    }
}
