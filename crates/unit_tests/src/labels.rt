//! Labels at work: each kind is printed, a dispatch's callbacks behind its own line, and a log keeps them in order.
use crate::rows::{holds, met};
use ckpt_types::{
    ActorName, AisError, Answer, Apart, AsyncKind, Bytes, CallId, Callback, Cause,
    CheckpointDescriptor, CreationAttributes, Elements, Given, NEVER, Op, Outcome, Pieces, ReadBuf,
    SectionDescriptor, SectionId, SectionState, Vector, Who,
};
use node_msgs::{Details, StepReply, Verb};
use run_labels::{
    Label, LineWord, OpWord, PullReply, PutReply, RunLog, Said, ShownReplica, ShownSection,
    ShownSlot, append_callbacks, append_line, render_callbacks, render_line,
};
use std::alloc::{AllocError, Global};
use std::process::Abort;

/// The call of most labels.
const C0_5: CallId = CallId {
    actor: ActorName::Client(0),
    number: 5,
};

/// The last step of the call, by which it is told these details.
fn told(op: OpWord, answer: Answer, details: Details) -> Label {
    Label::Stepped {
        call: C0_5,
        op,
        verb: Verb::Look,
        ckpt: None,
        node: None,
        reply: StepReply::Done,
        end: Some(Outcome::Done(answer)),
        details,
    }
}

/// The pieces that a read gave.
fn pieces(alloc: Global) -> Result<Details, AllocError> {
    let mut buf = ReadBuf::reserve(alloc, 2, 8)?;
    buf.push(b"XXaa");
    buf.push(b"bbbb");
    Ok(Details::Pieces(Pieces::from_buf(buf)))
}

/// A checkpoint of one node, the active, with one section, the default one, which never expires.
fn shown(alloc: Global) -> Result<Label, AllocError> {
    let section = ShownSection {
        descriptor: SectionDescriptor {
            id: SectionId::default(),
            expiration: NEVER,
            size: 3,
            state: SectionState::Valid,
            last_update: 0,
        },
        first: Bytes::from_slice(alloc, b"new")?,
    };
    let replica = ShownReplica {
        node: 1,
        active: true,
        generation: 3,
        count: 3,
        slot: ShownSlot::Held(C0_5),
        sections: Vector::from_vec(vec![in alloc; section]?),
    };
    Ok(Label::Shown(1, Some(Vector::from_vec(vec![in alloc; replica]?))))
}

/// The status of a checkpoint.
const STATUS: CheckpointDescriptor = CheckpointDescriptor {
    attributes: CreationAttributes {
        creation_flags: 1,
        checkpoint_size: 65536,
        retention_duration: 3_600_000_000_000,
        max_sections: 64,
        max_section_size: 1024,
        max_section_id_size: 8,
    },
    number_of_sections: 64,
    memory_used: 448,
};

/// A callback of an open or of a synchronisation.
fn callback(kind: AsyncKind, invocation: u64, outcome: Outcome) -> Callback {
    Callback {
        kind,
        invocation,
        outcome,
    }
}

/// A callback of each kind, and one of a call that was refused.
fn callbacks(alloc: Global) -> Result<Details, AllocError> {
    let held = Outcome::Refused(AisError::TryAgain, Cause::Holder(C0_5));
    let callbacks = vec![in alloc;
        callback(AsyncKind::Sync, 9, Outcome::Done(Answer::Pulled(1))),
        callback(AsyncKind::Open(3), 100, Outcome::Done(Answer::Opened(1))),
        callback(AsyncKind::Open(3), 7, held),
    ]?;
    let callbacks = Apart::new(alloc, Elements::from_vec(callbacks))?;
    Ok(Details::Callbacks(callbacks))
}

/// A dispatch that gave them.
fn dispatched(alloc: Global) -> Result<Label, AllocError> {
    let details = callbacks(alloc)?;
    let given = Answer::Dispatched(Given { given: 3, left: 0 });
    Ok(Label::Began {
        call: C0_5,
        op: Op::Dispatch(2),
        end: Some(Outcome::Done(given)),
        details,
    })
}

/// Adds a label of each kind that has no list.
fn add_plain(log: &mut RunLog) -> Result<(), AllocError> {
    log.reserve(9)?;
    log.push(Label::Nodes(3));
    log.push(Label::Began {
        call: C0_5,
        op: Op::Close(5),
        end: Some(Outcome::Refused(AisError::BadHandle, Cause::Plain)),
        details: Details::Nothing,
    });
    log.push(told(OpWord::Open, Answer::Opened(1), Details::Nothing));
    log.push(Label::Failed(1, true));
    log.push(Label::Joined(1, Some(2)));
    log.push(Label::Moved(0));
    log.push(Label::Pulled(1, PullReply::Ok(1)));
    log.push(Label::Put(1, 2, PutReply::Stale(1, 2)));
    let actor = Who::Actor(ActorName::Client(0));
    log.push(Label::Word(actor, LineWord::Op(OpWord::Read), Said::Busy));
    Ok(())
}

/// Adds a label for each kind of details, and one that shows a checkpoint.
fn add_told(alloc: Global, log: &mut RunLog) -> Result<(), AllocError> {
    let section = SectionDescriptor {
        id: SectionId::default(),
        expiration: 20,
        size: 4,
        state: SectionState::Corrupted,
        last_update: 0,
    };
    log.reserve(5)?;
    log.push(told(OpWord::Read, Answer::Pieces, pieces(alloc)?));
    let details = Details::Section(Apart::new(alloc, section)?);
    log.push(told(OpWord::Next, Answer::Section, details));
    let details = Details::Status(Apart::new(alloc, STATUS)?);
    log.push(told(OpWord::Status, Answer::Status, details));
    log.push(dispatched(alloc)?);
    log.push(shown(alloc)?);
    Ok(())
}

/// What a log prints.
fn printed(alloc: Global, log: &RunLog) -> Result<Vec<u8>, AllocError> {
    let mut out = Vec::new(alloc);
    for label in log.as_slice() {
        append_line(&mut out, label, true)?;
        append_callbacks(&mut out, label)?;
    }
    Ok(out)
}

const LINES: &str = "\
+ c0.5 begin close
c0.5 close BAD_HANDLE
+ c0.5 look done
c0.5 open OK K1
n1 fail OK
n1 join OK 2
+ at 0
K1 pull OK 1
K1 put n2 STALE 1 2
c0 read BUSY
+ c0.5 look done
c0.5 read OK x58586161 x62626262
+ c0.5 look done
c0.5 next OK x 20 4 CORRUPTED 0
+ c0.5 look done
c0.5 status OK 1 65536 3600000000000 64 1024 8 64 448
+ c0.5 begin dispatch
c0.5 dispatch OK 3 0
c0 callback sync 9 OK 1
c0 callback open 100 OK K1
c0 callback open 7 TRY_AGAIN c0.5
K1 n1* g3 u3 held c0.5 x VALID end 3 x6e6577
";

/// Whether the log prints these lines.
fn prints(alloc: Global, log: &RunLog, lines: &str) -> Result<bool, AllocError> {
    let out = printed(alloc, log)?;
    Ok(out.as_slice() == lines.as_bytes())
}

/// A log gets each kind of label, and prints their lines.
fn prints_each(rt: &impl Abort, alloc: Global, log: &mut RunLog) -> Result<(), AllocError> {
    add_plain(log)?;
    add_told(alloc, log)?;
    met(rt, 1, prints(alloc, log, LINES));
    Ok(())
}

#[test]
fn each_kind_of_label_prints_its_lines(rt: HostRuntime) -> Result<(), AllocError> {
    let mut log = RunLog::new(rt.alloc());
    prints_each(&rt, rt.alloc(), &mut log)
}

/// Whether this is the own line of the first label of a log.
fn prints_line(alloc: Global, log: &RunLog, line: &str) -> Result<bool, AllocError> {
    if log.is_empty() {
        return Ok(false);
    }
    let own = render_line(alloc, log.at(0), false)?;
    Ok(own.as_slice() == line.as_bytes())
}

/// Whether these are the callbacks of the first label of a log.
fn prints_callbacks(alloc: Global, log: &RunLog, lines: &str) -> Result<bool, AllocError> {
    if log.is_empty() {
        return Ok(false);
    }
    let callbacks = render_callbacks(alloc, log, 0)?;
    Ok(callbacks.as_slice() == lines.as_bytes())
}

const CALLBACKS: &str = "\
c0 callback sync 9 OK 1
c0 callback open 100 OK K1
c0 callback open 7 TRY_AGAIN c0.5
";

/// A log gets a dispatch, and prints it.
fn prints_apart(rt: &impl Abort, alloc: Global, log: &mut RunLog) -> Result<(), AllocError> {
    log.reserve(1)?;
    log.push(dispatched(alloc)?);
    met(rt, 1, prints_line(alloc, log, "c0.5 dispatch OK 3 0\n"));
    met(rt, 2, prints_callbacks(alloc, log, CALLBACKS));
    Ok(())
}

#[test]
fn a_dispatch_is_printed_apart_from_its_callbacks(rt: HostRuntime) -> Result<(), AllocError> {
    let mut log = RunLog::new(rt.alloc());
    prints_apart(&rt, rt.alloc(), &mut log)
}

/// Of three labels the last goes, and another comes.
fn change_last(log: &mut RunLog) -> Result<(), AllocError> {
    log.reserve(3)?;
    log.push(Label::Nodes(2));
    log.push(Label::Failed(1, true));
    log.push(Label::Moved(5));
    log.cut(2);
    log.push(Label::Failed(0, false));
    Ok(())
}

/// Whether the third label of three is n0's failure, which was down.
fn has_changed(log: &RunLog) -> bool {
    if log.len() != 3 {
        return false;
    }
    matches!(log.at(2), Label::Failed(0, false))
}

fn keeps_order(rt: &impl Abort, alloc: Global, log: &mut RunLog) -> Result<(), AllocError> {
    holds(rt, 1, log.is_empty());
    change_last(log)?;
    met(rt, 2, prints(alloc, log, "n1 fail OK\nn0 fail DOWN\n"));
    holds(rt, 3, has_changed(log));
    Ok(())
}

#[test]
fn a_log_keeps_its_labels_in_order(rt: HostRuntime) -> Result<(), AllocError> {
    let mut log = RunLog::new(rt.alloc());
    keeps_order(&rt, rt.alloc(), &mut log)
}
