//! The first words of lines.
ghost use Rattle.std.specs.Prelude.{◌≡◌};

use crate::identities::{CallId, Who};
use crate::operation::Op;

/// The first word of a call line.
#[derive(Clone, Copy)]
pub enum OpWord {
    /// `client`
    Client,
    /// `finalize`
    Finalize,
    /// `open`
    Open,
    /// `openasync`
    OpenAsync,
    /// `close`
    Close,
    /// `unlink`
    Unlink,
    /// `retain`
    Retain,
    /// `active`
    Active,
    /// `status`
    Status,
    /// `create`
    Create,
    /// `delete`
    Delete,
    /// `expire`
    Expire,
    /// `iter`
    Iter,
    /// `next`
    Next,
    /// `enditer`
    EndIter,
    /// `write`
    Write,
    /// `over`
    Over,
    /// `read`
    Read,
    /// `sync`
    Sync,
    /// `syncasync`
    SyncAsync,
    /// `dispatch`
    Dispatch,
    /// `copy`
    Copy,
}

impl OpWord {
    ghost use Rattle.ckpt_types.specs.OpWord.{word_of_op, is_async, stepped_as, op_text};

    /// The first word of the line that asks for a call.
    pub fn of(op: &Op) -> OpWord
        ensures { result ≡ word_of_op op.now }
    {
        match op {
            Op::Client(..) => OpWord::Client,
            Op::Finalize => OpWord::Finalize,
            Op::Open(..) => OpWord::Open,
            Op::OpenAsync(..) => OpWord::OpenAsync,
            Op::Close(..) => OpWord::Close,
            Op::Unlink(..) => OpWord::Unlink,
            Op::Retain(..) => OpWord::Retain,
            Op::Active(..) => OpWord::Active,
            Op::Status(..) => OpWord::Status,
            Op::Create(..) => OpWord::Create,
            Op::Delete(..) => OpWord::Delete,
            Op::Expire(..) => OpWord::Expire,
            Op::Iter(..) => OpWord::Iter,
            Op::Next(..) => OpWord::Next,
            Op::EndIter(..) => OpWord::EndIter,
            Op::Write(..) => OpWord::Write,
            Op::Over(..) => OpWord::Over,
            Op::Read(..) => OpWord::Read,
            Op::Sync(..) => OpWord::Sync,
            Op::SyncAsync(..) => OpWord::SyncAsync,
            Op::Dispatch(..) => OpWord::Dispatch,
            Op::Copy => OpWord::Copy,
        }
    }

    /// Whether the call is an asynchronous one, which goes on by itself under its own name.
    pub fn is_async(self) -> bool
        ensures { result ≡ is_async self }
    {
        matches!(self, OpWord::OpenAsync | OpWord::SyncAsync)
    }

    /// By whose name a call of this word is stepped.
    pub fn stepped_as(self, call: CallId) -> Who
        ensures { result ≡ stepped_as call self }
    {
        if self.is_async() {
            Who::Call(call)
        } else {
            Who::Actor(call.actor)
        }
    }

    /// How it is spelled.
    pub fn word(self) -> &'static str
        ensures { result.now ≡ op_text self }
    {
        match self {
            OpWord::Client => "client",
            OpWord::Finalize => "finalize",
            OpWord::Open => "open",
            OpWord::OpenAsync => "openasync",
            OpWord::Close => "close",
            OpWord::Unlink => "unlink",
            OpWord::Retain => "retain",
            OpWord::Active => "active",
            OpWord::Status => "status",
            OpWord::Create => "create",
            OpWord::Delete => "delete",
            OpWord::Expire => "expire",
            OpWord::Iter => "iter",
            OpWord::Next => "next",
            OpWord::EndIter => "enditer",
            OpWord::Write => "write",
            OpWord::Over => "over",
            OpWord::Read => "read",
            OpWord::Sync => "sync",
            OpWord::SyncAsync => "syncasync",
            OpWord::Dispatch => "dispatch",
            OpWord::Copy => "copy",
        }
    }
}

/// The first word of a line.
#[derive(Clone, Copy)]
pub enum FirstWord {
    /// That of a call line, or of a node's copying.
    Op(OpWord),
    /// `nodes`
    Nodes,
    /// `step`
    Step,
    /// `finish`
    Finish,
    /// `fail`
    Fail,
    /// `join`
    Join,
    /// `at`
    At,
    /// `pull`
    Pull,
    /// `put`
    Put,
    /// `propagate`
    Propagate,
    /// `show`
    Show,
    /// `race`
    Race,
    /// `end`
    End,
}
