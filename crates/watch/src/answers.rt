// What the calls over a list answer.
ghost use Rattle.std.specs.Prelude.{◌≡◌};
ghost use Rattle.text.specs.Refusal.{outcome};
ghost use Rattle.watch.specs.Watching.{told_found, told_listed, told_seen};

use text::Refusal;

// A record that ends somewhere, by its label and its first ending segment.
#[derive(Clone, Copy)]
pub struct Seen {
    pub label: u64,
    pub segment: usize,
}

// The first record that ends anywhere, by its label and its first ending segment. It stays an enum of its own: its name and shape are
// fixed.
#[derive(Clone, Copy)]
pub enum Found {
    Ends { label: u64, segment: usize },
    None,
    Refused(Refusal),
}

// Whether the records were marked. It stays an enum of its own: its name and shape are fixed.
#[derive(Clone, Copy)]
pub enum Listed {
    Marked,
    Refused(Refusal),
}

impl From<Result<Option<Seen>, Refusal>> for Found {
    fn from(seen: Result<Option<Seen>, Refusal>) -> Found
        ensures { told_found result ≡ told_seen seen }
    {
        match seen {
            Ok(Some(seen)) => Found::Ends {
                label: seen.label,
                segment: seen.segment,
            },
            Ok(None) => Found::None,
            Err(wrong) => Found::Refused(wrong),
        }
    }
}

impl From<Result<(), Refusal>> for Listed {
    fn from(marked: Result<(), Refusal>) -> Listed
        ensures { told_listed result ≡ outcome marked }
    {
        match marked {
            Ok(()) => Listed::Marked,
            Err(wrong) => Listed::Refused(wrong),
        }
    }
}
