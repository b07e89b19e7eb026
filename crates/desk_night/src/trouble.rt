// What keeps a night from being clear.
ghost use Rattle.std.specs.Prelude.{◌≡◌};
ghost use Rattle.desk_night.specs.declared.trouble.Trouble.TheVariants.{Refused};
ghost use Rattle.desk_night.specs.Trouble.{of_list, of_text};

use text::Refusal;

// The first trouble of a night.
#[derive(Clone, Copy)]
pub enum Trouble {
    // What is said of the list: a line is wrong, it has no sequence, or more than 32.
    List,
    Empty,
    Many,
    // What is said of the manifest: it is none, it was altered, a line is wrong, or it has no stretch.
    Foreign,
    Altered,
    Line,
    NoStretch,
    // A stretch could not be read.
    Unread,
    // A stretch was handed in, though the manifest has no further one.
    Added,
    // A stretch is not the one whose digest the manifest has.
    Changed,
    // The search refused a stretch.
    Refused(Refusal),
    // The manifest has more stretches than were handed in.
    Missing,
    // The manifest's counts are not those of the stretches that were handed in.
    Counts,
}

impl From<desk_list::Unsound> for Trouble {
    ghost from_gives = { λ unsound t. t ≡ of_list unsound };

    fn from(unsound: desk_list::Unsound) -> Trouble {
        match unsound {
            desk_list::Unsound::Wrong => Trouble::List,
            desk_list::Unsound::Empty => Trouble::Empty,
            desk_list::Unsound::Many => Trouble::Many,
        }
    }
}

impl From<manifest::Unsound> for Trouble {
    ghost from_gives = { λ unsound t. t ≡ of_text unsound };

    fn from(unsound: manifest::Unsound) -> Trouble {
        match unsound {
            manifest::Unsound::Foreign => Trouble::Foreign,
            manifest::Unsound::Altered => Trouble::Altered,
            manifest::Unsound::Wrong => Trouble::Line,
            manifest::Unsound::Empty => Trouble::NoStretch,
        }
    }
}

impl From<Refusal> for Trouble {
    ghost from_gives = { λ wrong t. t ≡ Refused wrong };

    fn from(wrong: Refusal) -> Trouble {
        Trouble::Refused(wrong)
    }
}
