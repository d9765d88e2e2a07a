// A count of what is lent: number 0 before it, or 21 and none where it is no graph.
ghost use Rattle.std.specs.Prelude.{◌≡◌};
ghost use Rattle.export.specs.Count.{counted};

#[repr(C)]
#[derive(Clone, Copy, Debug, PartialEq, Eq, Hash)]
pub struct Count {
    pub number: u64,
    pub count: u64,
}

pub fn counted(graph: bool, count: usize) -> Count
    ensures { result ≡ counted graph count }
{
    if graph {
        Count {
            number: 0,
            count: count as u64,
        }
    } else {
        Count {
            number: 21,
            count: 0,
        }
    }
}
