//! Where in a frame the checker stands.

ghost use Rattle.std.specs.Prelude.{◌≡◌, true, false};

/// What surrounds a form, but for what is declared.
#[derive(Clone, Copy, Debug, PartialEq, Eq)]
pub(crate) struct Place {
    /// Whether in a loop of its function.
    pub in_loop: bool,
    /// Whether in the tree's top list.
    pub in_top: bool,
}

impl Place {
    /// The tree's top list.
    pub const TOP: Place = Place {
        in_loop: false,
        in_top: true,
    };

    /// The body of a function.
    pub const BODY: Place = Place {
        in_loop: false,
        in_top: false,
    };

    /// Enters a loop that stands here.
    pub fn looping(self) -> Place
        ensures { result ≡ record self { in_loop = true } }
    {
        Place {
            in_loop: true,
            ..self
        }
    }

    /// Enters a block that stands here.
    pub fn inside(self) -> Place
        ensures { result ≡ record self { in_top = false } }
    {
        Place {
            in_top: false,
            ..self
        }
    }
}
