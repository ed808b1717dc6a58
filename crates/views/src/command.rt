ghost use Rattle.std.specs.Prelude.{[], ◌∷◌, map, string_bytes};
ghost use Rattle.views.specs.Commands.{Asks};

/// What is to be shown of a unit.
#[derive(Clone, Copy, Debug, PartialEq, Eq)]
pub enum View {
    /// Its classes, its slots and its code.
    Listing,
    /// What the analyses say of it.
    Effects,
}

/// What the program is asked to do.
// kept beside `Command` of `berth`: the two programs take different words, and one type for both would hold commands that
// one of them lacks
#[derive(Clone, Copy, Debug, PartialEq, Eq)]
pub enum Command<'a> {
    /// Show the built-in rule, and what the analyses say of it.
    Builtin,
    /// Show what the analyses say of the built-in rule.
    Effects,
    /// Show a view of the unit in the file of this name.
    OnFile { view: View, file: &'a str },
}

impl<'a> Command<'a> {
    /// The command that the words after the program's name give, or none where they give none.
    #[tactic(auto, using(listing::proofs::Words::no_words, listing::proofs::Words::one_word, listing::proofs::Words::two_words, crate::proofs::Commands::no_command))]
    pub fn parse(words: &'a [String]) -> Option<Command<'a>>
        ensures { Asks (map string_bytes words.now) result }
    {
        match words {
            [] => Some(Command::Builtin),
            [word] => Command::alone(word.as_str()),
            [verb, file] => Command::on_file(verb.as_str(), file.as_str()),
            _ => None,
        }
    }

    /// The command that a word alone asks for.
    fn alone(word: &str) -> Option<Command<'a>>
        ensures { Asks (word.now ∷ []) result }
    {
        match word {
            "effects" => Some(Command::Effects),
            _ => None,
        }
    }

    /// The command that a word asks for on a file.
    fn on_file(verb: &str, file: &'a str) -> Option<Command<'a>>
        ensures { Asks (verb.now ∷ file.now ∷ []) result }
    {
        match verb {
            "show" => Some(Command::OnFile {
                view: View::Listing,
                file,
            }),
            "effects" => Some(Command::OnFile {
                view: View::Effects,
                file,
            }),
            _ => None,
        }
    }
}
