// Where the records of a section stand: record i takes `width` bytes from `at + width * i` on.
ghost use Rattle.std.specs.Prelude.{◌≡◌, ◌≤◌};
ghost use Rattle.image.specs.Image.{place_in};
ghost use Rattle.image.specs.Read.{end_of};

use crate::record::Header;

#[derive(Clone, Copy, Debug, PartialEq, Eq)]
pub struct Section {
    pub at: u32,
    pub width: u32,
    pub count: u32,
}

// The last three sections of an image, or the whole of a route image.
#[derive(Clone, Copy, Debug, PartialEq, Eq)]
pub struct RouteLayout {
    pub routes: Section,
    pub paths: Section,
    pub steps: Section,
}

// The sections before them.
#[derive(Clone, Copy, Debug, PartialEq, Eq)]
pub struct CodeLayout {
    pub instructions: Section,
    pub cases: Section,
    pub sources: Section,
    pub edges: Section,
    pub handlers: Section,
}

#[derive(Clone, Copy, Debug, PartialEq, Eq)]
pub struct Layout {
    pub header: Header,
    pub code: CodeLayout,
    pub routes: RouteLayout,
}

// Where record i stands, and, at the count, where the section ends.
pub fn place(y: Section, i: usize) -> usize
    requires { i ≤ y.count }
    ensures { (result ≡ place_in y i) × (result ≤ 18446744069414584320) }
{
    y.at as usize + y.width as usize * i
}

// The same by a width that the caller knows: a number in the code costs less than one that is read.
pub fn place_by(y: Section, width: usize, i: usize) -> usize
    requires width { y.width ≡ width }
    requires within { i ≤ y.count }
    ensures { result ≡ place_in y i }
{
    y.at as usize + width * i
}

pub fn end_of(y: Section) -> usize
    ensures { result ≡ end_of y }
{
    place(y, y.count as usize)
}
