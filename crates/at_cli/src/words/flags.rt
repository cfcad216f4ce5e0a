//! The options of the command line, by name.

ghost use Rattle.std.specs.Prelude.{◌≡◌, option_map};
ghost use Rattle.std.specs.Option.{option_copied};
ghost use Rattle.at_cli.specs.Pieces.{setting_name};
ghost use Rattle.at_cli.specs.Steps.{behind, flag_shown, flag_behind as flag_of_rest, flag_for as flag_of_setting};
ghost use Rattle.at_cli.specs.Steps.{flag_in as flag_of_word};

/// What an option sets.
#[derive(Clone, Copy)]
pub enum Setting {
    Form,
    Coords,
    Digits,
    Blocks,
    Workers,
    Feed,
}

impl Setting {
    /// The option's name, as a word.
    fn name(self) -> &'static str
        ensures { result.now ≡ setting_name self }
    {
        match self {
            Setting::Form => "--form",
            Setting::Coords => "--coords",
            Setting::Digits => "--digits",
            Setting::Blocks => "--blocks",
            Setting::Workers => "--workers",
            Setting::Feed => "--feed",
        }
    }
}

/// A word that is an option: its name alone, or with a value behind `=`.
#[derive(Clone, Copy)]
pub struct Flag<'w> {
    pub setting: Setting,
    pub value: Option<&'w str>,
}

/// What is behind the prefix of the text.
pub fn text_behind<'w>(text: &'w str, prefix: &str) -> Option<&'w str>
    ensures { option_copied result ≡ behind prefix.now text.now }
{
    text.strip_prefix(prefix)
}

/// The option whose name is followed by that rest of its word.
fn flag_behind(setting: Setting, rest: &str) -> Option<Flag<'_>>
    ensures { option_map flag_shown result ≡ flag_of_rest setting rest.now }
{
    if rest.is_empty() {
        return Some(Flag {
            setting,
            value: None,
        });
    }
    let value = text_behind(rest, "=")?;
    Some(Flag {
        setting,
        value: Some(value),
    })
}

/// The word as that option.
fn flag_for(word: &str, setting: Setting) -> Option<Flag<'_>>
    ensures { option_map flag_shown result ≡ flag_of_setting setting word.now }
{
    let rest = text_behind(word, setting.name())?;
    flag_behind(setting, rest)
}

/// The option that the word is.
pub fn flag_in(word: &str) -> Option<Flag<'_>>
    ensures { option_map flag_shown result ≡ flag_of_word word.now }
{
    flag_for(word, Setting::Form)
        .or(flag_for(word, Setting::Coords))
        .or(flag_for(word, Setting::Digits))
        .or(flag_for(word, Setting::Blocks))
        .or(flag_for(word, Setting::Workers))
        .or(flag_for(word, Setting::Feed))
}
