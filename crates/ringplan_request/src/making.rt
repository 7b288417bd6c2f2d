//! What people ask for.

ghost use Rattle.std.specs.Prelude.{◌≡◌, ◌≢◌};

use plan_runs::Back;

/// The output of a text for people.
#[derive(Clone, Copy, Debug, PartialEq, Eq)]
pub enum Screen {
    /// A terminal whose user wants colours.
    Colored,
    /// A terminal whose user wants none.
    Bare,
    /// Another output.
    Plain,
}

/// Whether a text for people has colours.
#[derive(Clone, Copy, Debug, PartialEq, Eq)]
pub enum Color {
    /// If the output is known to have colours.
    Auto,
    /// On every output.
    Always,
    /// On no output.
    Never,
}

impl Color {
    /// Decides `Auto` by the screen.
    pub fn on(&self, screen: Screen) -> Color
        ensures { self.now ≢ Color.Auto → result ≡ self.now }
    {
        match (self, screen) {
            (Color::Always, _) | (Color::Auto, Screen::Colored) => Color::Always,
            (Color::Never, _) | (Color::Auto, Screen::Bare | Screen::Plain) => Color::Never,
        }
    }
}

/// How much a summary shows.
#[derive(Clone, Copy, Debug)]
pub enum Shape {
    /// A screenful; the rest is summed.
    Short,
    /// Everything.
    Whole,
}

/// How to summarize.
#[derive(Clone, Copy, Debug)]
pub struct Wish {
    pub shape: Shape,
    pub color: Color,
    /// One transfer's rate per second, at least 1, in the layout's unit. Needs a layout.
    pub rate: Option<u32>,
}

impl Wish {
    /// Decides the wish's colours for that screen.
    pub fn on(self, screen: Screen) -> Wish
        ensures same { (result.shape ≡ self.shape) × (result.rate ≡ self.rate) }
        ensures color { self.color ≢ Color.Auto → result.color ≡ self.color }
    {
        Wish {
            shape: self.shape,
            color: self.color.on(screen),
            rate: self.rate,
        }
    }
}

/// A picture.
#[derive(Clone, Copy, Debug)]
pub enum Picture {
    /// Who gives what to whom, by round.
    Rounds,
    /// Who owns what before and after.
    Map,
}

/// How to cut a plan.
#[derive(Clone, Copy, Debug)]
pub struct Cut {
    /// How many rounds of copies a window has.
    pub rounds: u32,
    /// The wanted window, counted from 1. None for all.
    pub only: Option<u32>,
}

/// What a printed plan's exit status says.
#[derive(Clone, Copy, Debug, PartialEq, Eq)]
pub enum Exit {
    /// That a plan is printed: 0.
    Printed,
    /// Whether the plan has steps: 4 for yes, 0 for no.
    Steps,
}

/// How much of a begun plan to keep.
#[derive(Clone, Copy, Debug, PartialEq, Eq)]
pub enum Extent {
    /// All.
    Whole,
    /// Only the begun moves.
    Begun,
}

/// How to continue a stopped plan.
#[derive(Clone, Copy, Debug)]
pub struct Detour {
    /// Whether mirrors may be undone.
    pub back: Back,
    pub extent: Extent,
    /// How to report slots that end elsewhere than planned: sums by node, or a line each.
    pub shape: Shape,
}

/// A statement as a JSON object.
#[derive(Clone, Copy, Debug)]
pub enum Statement {
    /// Why the bundle is refused, or what a yes says.
    Why,
    /// What the plan does to each node, and how far a history has come; for only a ring, its nodes. Ignores shape and
    /// colours: all is stated.
    Show(Wish),
    /// A plan to the wished ring, and how much it moves.
    Goal(Exit),
}

/// What can be made of a bundle.
#[derive(Clone, Copy, Debug)]
pub enum Making {
    /// Why the bundle is refused, or what a yes says.
    Why(Color),
    /// The ring, the plan and a new certificate, even if the bundle has one.
    Cert,
    /// The ring after the plan, or after its history.
    After,
    /// A summary.
    Show(Wish),
    /// A picture.
    Draw(Picture),
    /// The plan's steps as lines of JSON.
    Steps,
    /// The slots that move, as lines of JSON.
    Moves,
    /// The plan's windows, or one.
    Windows(Cut),
    /// A plan to the wished ring.
    Goal(Exit),
    /// Another plan for a begun change, with its history.
    Around(Detour),
    /// An object of JSON.
    State(Statement),
}
