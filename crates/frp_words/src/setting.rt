ghost use Rattle.std.specs.Prelude.{◌≡◌};
ghost use Rattle.frp_words.specs.CommandLine as spec;
ghost use Rattle.frp_words.specs.Steps.{setting_called};

/// An option of the command line.
#[derive(Clone, Copy)]
pub enum Setting {
    Workers,
    Count,
    Start,
}

impl Setting {
    /// The option that a word names.
    #[tactic(auto, unfolding(crate::specs::Steps::setting_called))]
    pub fn called(word: &str) -> Option<Setting>
        ensures { result ≡ setting_called word.now }
    {
        if word == "--workers" {
            Some(Setting::Workers)
        } else if word == "--count" {
            Some(Setting::Count)
        } else if word == "--start" {
            Some(Setting::Start)
        } else {
            None
        }
    }

    /// The least value.
    fn least(self) -> u32
        ensures { result ≡ spec.least self }
    {
        match self {
            Setting::Workers | Setting::Count => 1,
            Setting::Start => 0,
        }
    }

    /// The greatest value.
    fn most(self) -> u32
        ensures { result ≡ spec.most self }
    {
        match self {
            Setting::Workers => 16,
            Setting::Count => 4000,
            Setting::Start => 2_147_483_647,
        }
    }

    /// The number, where the option may have it.
    fn within(self, n: u32) -> Option<u32>
        ensures { result ≡ spec.within self n }
    {
        if self.least() <= n && n <= self.most() {
            Some(n)
        } else {
            None
        }
    }

    /// The whole number, where the option may have it.
    #[tactic(auto, using(crate::proofs::Numbers::allowed_fits, crate::proofs::Numbers::allowed_not))]
    fn allowed(self, n: i64) -> Option<u32>
        ensures { result ≡ spec.if_allowed self n }
    {
        match u32::try_from(n) {
            Ok(n) => self.within(n),
            Err(_) => None,
        }
    }

    /// The value that a text writes, where the option may have it.
    #[tactic(auto, using(crate::proofs::Numbers::value_number, crate::proofs::Numbers::value_not))]
    pub fn value(self, text: &str) -> Option<u32>
        ensures { result ≡ spec.value_of self text.now }
    {
        match text.parse::<i64>() {
            Ok(n) => self.allowed(n),
            Err(_) => None,
        }
    }
}
