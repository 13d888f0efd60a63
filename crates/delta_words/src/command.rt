//! The commands, and what each takes.

ghost use Rattle.std.specs.Prelude.{◌≡◌};
ghost use Rattle.delta_words.specs.Commands.{command_of, operands_alone, takes_of};

/// The command that the first word of a command line names.
#[derive(Clone, Copy)]
pub enum Command {
    /// `run`
    Run,
    /// `eval`
    Eval,
    /// `check`
    Check,
    /// `print`
    Print,
    /// `text`
    Text,
    /// `gen`
    Gen,
    /// `bound`
    Bound,
    /// `derive`
    Derive,
    /// `feed`
    Feed,
    /// `save`
    Save,
    /// `resume`
    Resume,
}

/// What a command takes: how many operands must stand there and how many may, and which options, each at most once.
#[derive(Clone, Copy)]
pub struct Takes {
    /// How many operands must stand there.
    pub operands: usize,
    /// How many may.
    pub most: usize,
    /// Whether `--budget` may stand there, with a number.
    pub budget: bool,
    /// Whether `--v2` may.
    pub v2: bool,
    /// Whether `--frames` may.
    pub frames: bool,
}

// So many operands, and no option.
fn without_options(operands: usize) -> Takes
    ensures { result ≡ operands_alone operands }
{
    Takes {
        operands,
        most: operands,
        budget: false,
        v2: false,
        frames: false,
    }
}

impl Command {
    /// The command of this name, written whole.
    pub fn named(word: &str) -> Option<Command>
        ensures { result ≡ command_of word.now }
    {
        match word {
            "run" => Some(Command::Run),
            "eval" => Some(Command::Eval),
            "check" => Some(Command::Check),
            "print" => Some(Command::Print),
            "text" => Some(Command::Text),
            "gen" => Some(Command::Gen),
            "bound" => Some(Command::Bound),
            "derive" => Some(Command::Derive),
            "feed" => Some(Command::Feed),
            "save" => Some(Command::Save),
            "resume" => Some(Command::Resume),
            _ => None,
        }
    }

    /// What the command takes.
    pub fn takes(self) -> Takes
        ensures { result ≡ takes_of self }
    {
        match self {
            Command::Run | Command::Eval => Takes {
                budget: true,
                v2: true,
                ..without_options(1)
            },
            Command::Check | Command::Print | Command::Bound => without_options(1),
            Command::Text => Takes {
                v2: true,
                frames: true,
                ..without_options(0)
            },
            Command::Gen | Command::Derive => without_options(2),
            Command::Feed => Takes {
                most: 10,
                budget: true,
                ..without_options(3)
            },
            Command::Save => Takes {
                most: 3,
                budget: true,
                v2: true,
                ..without_options(2)
            },
            Command::Resume => Takes {
                budget: true,
                v2: true,
                ..without_options(2)
            },
        }
    }
}
