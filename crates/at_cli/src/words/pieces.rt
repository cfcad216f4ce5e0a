//! Words read from left to right: options, their values, and what stands by its place.

ghost use Rattle.std.specs.Prelude.{◌≡◌, option_map, map, string_bytes};
ghost use Rattle.std.specs.Option.{option_copied};
ghost use Rattle.at_cli.specs.Steps.{places_shown, shown, start, value_at, set_value, with_value, with_place};
ghost use Rattle.at_cli.specs.Steps.{with_flag, with_piece, step as step_over, unless_waiting, walk as walk_over};
ghost use Rattle.at_cli.specs.Steps.{gathered, placed, flag_shown};

use crate::words::flags::{Flag, Setting, flag_in};

/// What the next word is taken for.
#[derive(Clone, Copy)]
pub enum Next {
    /// An option, a positional or the end word.
    Any,
    /// The value of that option.
    Value(Setting),
    /// A positional.
    Positional,
}

/// The positionals so far.
#[derive(Clone, Copy)]
pub enum Places<'w> {
    Empty,
    Query(&'w str),
    One(&'w str, &'w str),
    Two(&'w str, &'w str, &'w str),
}

impl<'w> Places<'w> {
    /// The positionals with one more, where there is room for it.
    fn with(self, word: &'w str) -> Option<Places<'w>>
        ensures { option_map places_shown result ≡ placed (places_shown self.entry) word.now }
    {
        match self {
            Places::Empty => Some(Places::Query(word)),
            Places::Query(query) => Some(Places::One(query, word)),
            Places::One(query, first) => Some(Places::Two(query, first, word)),
            Places::Two(..) => None,
        }
    }
}

/// What the words so far say: the values of options, and the positionals.
#[derive(Clone, Copy)]
pub struct Pieces<'w> {
    pub form: Option<&'w str>,
    pub coords: Option<&'w str>,
    pub digits: Option<&'w str>,
    pub blocks: Option<&'w str>,
    pub workers: Option<&'w str>,
    pub feed: Option<&'w str>,
    pub places: Places<'w>,
    pub next: Next,
}

impl<'w> Pieces<'w> {
    /// What no words say.
    fn new() -> Self
        ensures { shown result ≡ start }
    {
        Pieces {
            form: None,
            coords: None,
            digits: None,
            blocks: None,
            workers: None,
            feed: None,
            places: Places::Empty,
            next: Next::Any,
        }
    }

    /// The value that the option was given.
    fn value(&self, setting: Setting) -> Option<&'w str>
        ensures { option_copied result ≡ value_at (shown self.now) setting }
    {
        match setting {
            Setting::Form => self.form,
            Setting::Coords => self.coords,
            Setting::Digits => self.digits,
            Setting::Blocks => self.blocks,
            Setting::Workers => self.workers,
            Setting::Feed => self.feed,
        }
    }

    /// The pieces with that value of the option, before a word of any kind.
    fn set(self, setting: Setting, value: &'w str) -> Self
        ensures { shown result ≡ set_value setting value.now (shown self.entry) }
    {
        let before = Pieces {
            next: Next::Any,
            ..self
        };
        match setting {
            Setting::Form => Pieces {
                form: Some(value),
                ..before
            },
            Setting::Coords => Pieces {
                coords: Some(value),
                ..before
            },
            Setting::Digits => Pieces {
                digits: Some(value),
                ..before
            },
            Setting::Blocks => Pieces {
                blocks: Some(value),
                ..before
            },
            Setting::Workers => Pieces {
                workers: Some(value),
                ..before
            },
            Setting::Feed => Pieces {
                feed: Some(value),
                ..before
            },
        }
    }

    /// The pieces with one option more, which may not be given twice.
    fn with_value(self, setting: Setting, value: &'w str) -> Option<Self>
        ensures { option_map shown result ≡ with_value setting value.now (shown self.entry) }
    {
        match self.value(setting) {
            None => Some(self.set(setting, value)),
            Some(_) => None,
        }
    }

    /// The pieces with one positional more.
    fn with_place(self, word: &'w str) -> Option<Self>
        ensures { option_map shown result ≡ with_place word.now (shown self.entry) }
    {
        let places = self.places.with(word)?;
        Some(Pieces { places, ..self })
    }

    /// The pieces with a word that is an option.
    fn with_flag(self, flag: Flag<'w>) -> Option<Self>
        ensures { option_map shown result ≡ with_flag (shown self.entry) (flag_shown flag.entry) }
    {
        match flag.value {
            None => Some(Pieces {
                next: Next::Value(flag.setting),
                ..self
            }),
            Some(value) => self.with_value(flag.setting, value),
        }
    }

    /// The pieces with a word of any kind.
    fn with_piece(self, word: &'w str) -> Option<Self>
        ensures { option_map shown result ≡ with_piece word.now (shown self.entry) }
    {
        if !word.as_bytes().starts_with(b"-") {
            return self.with_place(word);
        }
        if word == "--" {
            return Some(Pieces {
                next: Next::Positional,
                ..self
            });
        }
        let flag = flag_in(word)?;
        self.with_flag(flag)
    }

    /// The pieces, where no option's value is still to come.
    fn ended(self) -> Option<Self>
        ensures { option_map shown result ≡ unless_waiting self.entry.next (shown self.entry) }
    {
        match self.next {
            Next::Value(_) => None,
            Next::Any | Next::Positional => Some(self),
        }
    }

    /// The pieces with one word more.
    fn step(self, word: &'w str) -> Option<Self>
        ensures { option_map shown result ≡ step_over (shown self.entry) word.now }
    {
        match self.next {
            Next::Any => self.with_piece(word),
            Next::Value(setting) => self.with_value(setting, word),
            Next::Positional => self.with_place(word),
        }
    }
}

/// The pieces with those words more.
fn walk<'w>(mut pieces: Pieces<'w>, words: &'w [String]) -> Option<Pieces<'w>>
    ensures { option_map shown result ≡ walk_over (shown pieces.entry) (map string_bytes words.now) }
{
    for word in words {
        pieces = pieces.step(word.as_str())?;
    }
    Some(pieces)
}

/// What the words say, where they are pieces.
pub fn gather(words: &[String]) -> Option<Pieces<'_>>
    ensures { option_map shown result ≡ gathered (map string_bytes words.now) }
{
    walk(Pieces::new(), words)?.ended()
}
