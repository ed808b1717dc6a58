ghost use Rattle.std.specs.Prelude.{[], ◌∷◌, map, string_bytes};
ghost use Rattle.berth.specs.Commands.{Asks};

/// What the program is asked to do.
// Kept beside `Command` of `views`: the two programs take different words.
#[derive(Clone, Copy, Debug, PartialEq, Eq)]
pub enum Command<'a> {
    /// Show the built-in rule.
    Builtin,
    /// Show the unit in the file of this name.
    Show(&'a str),
}

impl<'a> Command<'a> {
    /// The command that the words after the program's name give, or none where they give none.
    #[tactic(auto, using(listing::proofs::Words::no_words, listing::proofs::Words::two_words, crate::proofs::Commands::no_command))]
    pub fn parse(words: &'a [String]) -> Option<Command<'a>>
        ensures { Asks (map string_bytes words.now) result }
    {
        match words {
            [] => Some(Command::Builtin),
            [verb, file] => Command::on_file(verb.as_str(), file.as_str()),
            _ => None,
        }
    }

    /// The command that a word asks for on a file.
    fn on_file(verb: &str, file: &'a str) -> Option<Command<'a>>
        ensures { Asks (verb.now ∷ file.now ∷ []) result }
    {
        match verb {
            "show" => Some(Command::Show(file)),
            _ => None,
        }
    }
}
