//! `Trick`, what a kernel behind a script does otherwise, and the rules that this means.

/// What a kernel behind a script does otherwise than the toy kernel.
#[derive(Clone, Copy, Drop)]
pub(crate) enum Trick {
    /// Nothing.
    Nothing,
    /// Its greeting on shell begins with FE.
    BadGreeting,
    /// After its handshake on shell it sends the head of a frame of 2^63 octets.
    HugeFrame,
    /// After its handshake on control it sends ERROR.
    ErrorCommand,
    /// It sends READY twice on shell.
    SecondReady,
    /// It sends no idle of the first cell.
    NoIdle,
    /// It sends each reply after the idle.
    LateReply,
    /// It sends each idle after the reply.
    LateIdle,
    /// It sends the stream of the first cell after the idle, and the reply after both.
    LateStream,
    /// It signs the stream of the first cell wrongly.
    BadSignature,
    /// It sends the stream of the first cell twice.
    TwoStreams,
    /// It sends the messages of the first cell for another request.
    OtherRequest,
    /// It sends the stream of the first cell once more, for the next request.
    NextRequest,
    /// Its IOPub ends in the second message of the first cell.
    CutOff,
    /// It sends the stream of the first cell without end.
    Endless,
    /// It takes no interrupt.
    Deaf,
    /// It sends nothing on the heartbeat.
    NoEcho,
    /// It sends no reply to kernel_info_request.
    NoInfo,
    /// It sends the stream of the first cell for the next request too, right behind the idle of the first.
    EarlyStream,
    /// It sends the reply to the first cell for the next request too, at once and again before the reply to it.
    ReplayedReply,
    /// After its reply to kernel_info_request it sends the head of a frame of 2^63 octets.
    BrokenInfo,
    /// After its reply to each cell it sends the head of a frame of 2^63 octets.
    BrokenReply,
    /// After its reply to each cell it sends that head, and the stream of the first cell without end.
    Flood,
    /// It sends the idle of each cell on shell too, before it does on IOPub.
    IdleOnShellFirst,
    /// It sends the idle of each cell on shell too, after it did on IOPub.
    IdleOnShellLast,
}

/// Which octets of a channel a rule is for.
#[derive(Clone, Copy, Drop)]
pub(crate) enum Mark {
    Greeting,
    Ready,
    /// Each message after the handshake.
    Messages,
    /// The reply to kernel_info_request.
    Info,
    /// The replies to requests of cells.
    Replies,
    /// The idles of cells.
    Idles,
    /// All that is published for the first cell.
    First,
    /// The reply to the request of the first cell.
    FirstReply,
    /// The idle of the first cell.
    FirstIdle,
    /// The input of the first cell.
    FirstInput,
    /// The stream of the first cell.
    FirstStream,
}

/// What is done to what a rule is for.
#[derive(Clone, Copy, Drop)]
pub(crate) enum Deed {
    /// It goes out as it is.
    Keep,
    /// It doesn't go out.
    Drop,
    /// It goes out twice.
    Repeat,
    /// The head of a frame of 2^63 octets goes out after it.
    AddHuge,
    /// ERROR goes out after it.
    AddError,
    /// Its first octet is FE.
    Break,
    /// The last digit of its signature is another.
    Spoil,
    /// It is for another request.
    Swap,
    /// It goes out, and again for the next request.
    Echo,
    /// Half of it goes out, and then the connection ends.
    Cut,
    /// It waits until all else was handed out.
    Hold,
    /// It waits until the kernel is idle.
    Late,
    /// It goes out, and for the next request once the kernel is idle.
    Early,
    /// It goes out, and for the next request at once and before the next message.
    Replay,
    /// It goes out at each tick, and no other message does.
    Endless,
}

/// What a script does to the messages of a channel.
#[derive(Clone, Copy, Drop)]
pub(crate) struct Rule {
    pub(crate) mark: Mark,
    pub(crate) deed: Deed,
}

/// This is done to those octets.
fn doing(mark: Mark, deed: Deed) -> Rule {
    Rule { mark, deed }
}

/// The rule for shell.
pub(crate) fn shell_rule(trick: Trick) -> Rule {
    match trick {
        Trick::BadGreeting => doing(Mark::Greeting, Deed::Break),
        Trick::HugeFrame => doing(Mark::Ready, Deed::AddHuge),
        Trick::SecondReady => doing(Mark::Ready, Deed::Repeat),
        Trick::NoInfo => doing(Mark::Info, Deed::Drop),
        Trick::ReplayedReply => doing(Mark::FirstReply, Deed::Replay),
        Trick::BrokenInfo => doing(Mark::Info, Deed::AddHuge),
        Trick::BrokenReply | Trick::Flood => doing(Mark::Replies, Deed::AddHuge),
        Trick::LateReply => doing(Mark::Replies, Deed::Hold),
        Trick::LateStream => doing(Mark::Replies, Deed::Hold),
        Trick::IdleOnShellLast => doing(Mark::Idles, Deed::Hold),
        _ => doing(Mark::Messages, Deed::Keep),
    }
}

/// The rule for control.
pub(crate) fn control_rule(trick: Trick) -> Rule {
    match trick {
        Trick::ErrorCommand => doing(Mark::Ready, Deed::AddError),
        _ => doing(Mark::Messages, Deed::Keep),
    }
}

/// The rule for IOPub.
pub(crate) fn iopub_rule(trick: Trick) -> Rule {
    match trick {
        Trick::NoIdle => doing(Mark::FirstIdle, Deed::Drop),
        Trick::LateIdle => doing(Mark::Idles, Deed::Hold),
        Trick::IdleOnShellFirst => doing(Mark::Idles, Deed::Hold),
        Trick::LateStream => doing(Mark::FirstStream, Deed::Late),
        Trick::EarlyStream => doing(Mark::FirstStream, Deed::Early),
        Trick::BadSignature => doing(Mark::FirstStream, Deed::Spoil),
        Trick::TwoStreams => doing(Mark::FirstStream, Deed::Repeat),
        Trick::OtherRequest => doing(Mark::First, Deed::Swap),
        Trick::NextRequest => doing(Mark::FirstStream, Deed::Echo),
        Trick::CutOff => doing(Mark::FirstInput, Deed::Cut),
        Trick::Endless | Trick::Flood => doing(Mark::FirstStream, Deed::Endless),
        _ => doing(Mark::Messages, Deed::Keep),
    }
}

/// The rule for the heartbeat.
pub(crate) fn heart_rule(trick: Trick) -> Rule {
    match trick {
        Trick::NoEcho => doing(Mark::Messages, Deed::Drop),
        _ => doing(Mark::Messages, Deed::Keep),
    }
}
