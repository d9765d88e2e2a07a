// An image, or the routes for a later call, once they are read: the bytes, where the sections stand in them, and what holds of them.
ghost use Rattle.std.specs.Prelude.{◌≡◌};
ghost use Rattle.image.specs.Image.{image_in, routes_in};
ghost use Rattle.image.specs.Read.{read_image, read_routes};
ghost use Rattle.image.specs.There.{ImageThere, RoutesThere};
ghost use Rattle.image.specs.Accepted.{Accepted, AcceptedRoutes};

use crate::form::ImageError;
use crate::read::{read_image, read_routes};
use crate::record::{
    Case, GivenEdge, GivenSource, Handler, Header, Instruction, Path, Route, Step,
};
use crate::section::{Layout, RouteLayout};
use crate::table::Table;

#[derive(Clone, Copy)]
pub struct Image<'a> {
    pub bytes: &'a [u8],
    pub layout: Layout,
    pub ghost there: { ImageThere bytes.now layout },
    pub ghost accepted: { Accepted (image_in bytes.now layout) },
}

impl<'a> Image<'a> {
    ghost use Rattle.image.specs.Whole.{contents, routes_of, reading_of};

    pub fn read(bytes: &'a [u8]) -> Result<Image<'a>, ImageError>
        ensures { reading_of result ≡ read_image bytes.now }
    {
        let layout = read_image(bytes)?;
        Ok(Image { bytes, layout })
    }

    pub fn header(&self) -> Header
        ensures { result ≡ (contents self.now).header }
    {
        self.layout.header
    }

    pub fn instructions(&self) -> Table<'a, Instruction>
        ensures { result ≡ (contents self.now).instructions }
    {
        Table::new(self.bytes, self.layout.code.instructions)
    }

    pub fn cases(&self) -> Table<'a, Case>
        ensures { result ≡ (contents self.now).cases }
    {
        Table::new(self.bytes, self.layout.code.cases)
    }

    pub fn sources(&self) -> Table<'a, GivenSource>
        ensures { result ≡ (contents self.now).sources }
    {
        Table::new(self.bytes, self.layout.code.sources)
    }

    pub fn edges(&self) -> Table<'a, GivenEdge>
        ensures { result ≡ (contents self.now).edges }
    {
        Table::new(self.bytes, self.layout.code.edges)
    }

    pub fn handlers(&self) -> Table<'a, Handler>
        ensures { result ≡ (contents self.now).handlers }
    {
        Table::new(self.bytes, self.layout.code.handlers)
    }

    pub fn routes(&self) -> Routes<'a>
        ensures { routes_of result ≡ (contents self.now).routes }
    {
        Routes {
            bytes: self.bytes,
            layout: self.layout.routes,
        }
    }
}

#[derive(Clone, Copy)]
pub struct Routes<'a> {
    pub bytes: &'a [u8],
    pub layout: RouteLayout,
    pub ghost there: { RoutesThere bytes.now layout },
    pub ghost accepted: { AcceptedRoutes (routes_in bytes.now layout) },
}

impl<'a> Routes<'a> {
    ghost use Rattle.image.specs.Whole.{routes_of, routes_reading_of};

    pub fn read(bytes: &'a [u8]) -> Result<Routes<'a>, ImageError>
        ensures { routes_reading_of result ≡ read_routes bytes.now }
    {
        let layout = read_routes(bytes)?;
        Ok(Routes { bytes, layout })
    }

    pub fn routes(&self) -> Table<'a, Route>
        ensures { result ≡ (routes_of self.now).routes }
    {
        Table::new(self.bytes, self.layout.routes)
    }

    pub fn paths(&self) -> Table<'a, Path>
        ensures { result ≡ (routes_of self.now).paths }
    {
        Table::new(self.bytes, self.layout.paths)
    }

    pub fn steps(&self) -> Table<'a, Step>
        ensures { result ≡ (routes_of self.now).steps }
    {
        Table::new(self.bytes, self.layout.steps)
    }
}
