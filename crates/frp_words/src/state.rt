ghost use Rattle.std.specs.Prelude.{◌≡◌};
ghost use Rattle.frp_words.specs.Steps as spec;

use crate::setting::Setting;

/// The values of the options that were used so far.
#[derive(Clone, Copy)]
pub struct Given {
    pub workers: Option<u32>,
    pub count: Option<u32>,
    pub start: Option<u32>,
}

impl Given {
    /// One more value, where the option wasn't used yet.
    pub fn with(self, setting: Setting, n: u32) -> Option<Given>
        ensures { result ≡ spec.with_value self setting n }
    {
        match setting {
            Setting::Workers if self.workers.is_none() => Some(Given {
                workers: Some(n),
                ..self
            }),
            Setting::Count if self.count.is_none() => Some(Given {
                count: Some(n),
                ..self
            }),
            Setting::Start if self.start.is_none() => Some(Given {
                start: Some(n),
                ..self
            }),
            _ => None,
        }
    }
}

/// What the next word is.
#[derive(Clone, Copy)]
pub enum Place {
    /// It begins the use of an option, or is the `--` that ends them.
    Open,
    /// It is the value of this option.
    Awaits(Setting),
    /// There is none.
    Ended,
}

/// Where the reading of words stands between two of them.
#[derive(Clone, Copy)]
pub struct State {
    pub place: Place,
    pub given: Given,
}

impl State {
    /// Before the first word after the mode.
    pub fn start() -> State
        ensures { result ≡ spec.start }
    {
        State {
            place: Place::Open,
            given: Given {
                workers: None,
                count: None,
                start: None,
            },
        }
    }

    /// After one more word; none where it is wrong there.
    #[tactic(auto, unfolding(crate::specs::Steps::step))]
    pub fn step(self, word: &str) -> Option<State>
        ensures { result ≡ spec.step self word.now }
    {
        match self.place {
            Place::Open => begin(self.given, word),
            Place::Awaits(setting) => take(self.given, setting, word),
            Place::Ended => None,
        }
    }

    /// The values, where the words may end.
    pub fn end(self) -> Option<Given>
        ensures { result ≡ spec.end self }
    {
        match self.place {
            Place::Open | Place::Ended => Some(self.given),
            Place::Awaits(_) => None,
        }
    }
}

/// After the word that begins the use of an option.
fn begin(given: Given, word: &str) -> Option<State>
    ensures { result ≡ spec.begun given word.now }
{
    if word == "--" {
        return Some(State {
            place: Place::Ended,
            given,
        });
    }
    match Setting::called(word) {
        Some(setting) => Some(State {
            place: Place::Awaits(setting),
            given,
        }),
        None => join(given, word),
    }
}

/// After a word `--name=value`.
fn join(given: Given, word: &str) -> Option<State>
    ensures { result ≡ spec.joined given word.now }
{
    let (name, text) = word.split_once('=')?;
    match Setting::called(name) {
        Some(setting) => take(given, setting, text),
        None => None,
    }
}

/// After the value of an option.
#[tactic(auto, unfolding(crate::specs::Steps::taken))]
fn take(given: Given, setting: Setting, text: &str) -> Option<State>
    ensures { result ≡ spec.taken given setting text.now }
{
    let n = setting.value(text)?;
    let given = given.with(setting, n)?;
    Some(State {
        place: Place::Open,
        given,
    })
}
