//! How verbs and the words that answer a line are spelled.
ghost use Rattle.std.specs.Prelude.{◌≡◌};
ghost use Rattle.run_labels.specs.Words.{verb_text};

use ckpt_types::OpWord;
use node_msgs::Verb;

/// How the verb of a step is spelled.
pub fn verb_word(verb: Verb) -> &'static str
    ensures { result.now ≡ verb_text verb }
{
    match verb {
        Verb::Enter => "enter",
        Verb::Leave => "leave",
        Verb::Open => "open",
        Verb::Create => "create",
        Verb::Reserve => "reserve",
        Verb::Finish => "finish",
        Verb::Undo => "undo",
        Verb::Close => "close",
        Verb::Unlink => "unlink",
        Verb::Retain => "retain",
        Verb::Read => "read",
        Verb::Status => "status",
        Verb::Iter => "iter",
        Verb::Next => "next",
        Verb::Stage => "stage",
        Verb::Commit => "commit",
        Verb::Claim => "claim",
        Verb::Withdraw => "withdraw",
        Verb::Apply => "apply",
        Verb::Mark => "mark",
        Verb::Element => "element",
        Verb::Unmark => "unmark",
        Verb::Pull => "pull",
        Verb::Install => "install",
        Verb::Hold => "hold",
        Verb::Activate => "activate",
        Verb::Complete => "complete",
        Verb::Look => "look",
    }
}

/// The line that a word answers.
#[derive(Clone, Copy)]
pub enum LineWord {
    /// A call line, or one that begins a call.
    Op(OpWord),
    /// A `step` line.
    Step,
    /// A `finish` line.
    Finish,
}

impl LineWord {
    ghost use Rattle.run_labels.specs.Words.{line_word_text};

    /// How it is spelled.
    pub fn word(self) -> &'static str
        ensures { result.now ≡ line_word_text self }
    {
        match self {
            LineWord::Op(op) => op.word(),
            LineWord::Step => "step",
            LineWord::Finish => "finish",
        }
    }
}

/// The word that answers a line in place of a call.
#[derive(Clone, Copy)]
pub enum Said {
    /// A call is in hand.
    Busy,
    /// No call is in hand.
    Idle,
    /// It is live, or up.
    Live,
    /// The node is not up.
    Down,
}

impl Said {
    ghost use Rattle.run_labels.specs.Words.{said_text};

    /// How it is spelled.
    pub fn word(self) -> &'static str
        ensures { result.now ≡ said_text self }
    {
        match self {
            Said::Busy => "BUSY",
            Said::Idle => "IDLE",
            Said::Live => "LIVE",
            Said::Down => "DOWN",
        }
    }
}
