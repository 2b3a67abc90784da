//! A store whose tree has sessions.
ghost use Rattle.std.specs.Prelude.{◌≡◌, ◌≤ℤ◌, pos, IfOk, IfErr, OnErr, IsErrOf, Ok};
ghost use Rattle.kz_spec_data.specs.Tree as znodes;
ghost use Rattle.kz_spec_data.specs.Requests.{BeginSession, EndSession, answer_by, IsTaken, ChangesDisk, Between};
ghost use Rattle.kz_session.specs.Sessions.{answer_of_session_fault, IsRefusal};

use kz_tree::ZTree;

/// Why a session doesn't begin or end.
#[derive(Clone, Copy, Debug, PartialEq, Eq)]
pub enum SessionFault {
    /// The session is live already.
    Known,
    /// The session isn't live.
    Unknown,
    /// Memory ran out.
    NoMemory,
    /// A call of the disk failed, and the store is down.
    Device,
    /// A call of the disk failed in an earlier request.
    Down,
    /// The file would have so many bytes.
    Full { length: u64 },
    /// The limit of this number would be passed.
    Limit { number: u8 },
}

/// A store whose tree has sessions: a znode may end with one.
pub trait ZSessions: ZTree {
    /// Begins a session, which is at least 1, and answers the zxid. `Known`: it is live already.
    fn begin_session(&mut self, session: i64) -> Result<i64, SessionFault>
        requires { pos 1 ≤ℤ session }
        ensures ok { IfOk result (λ zxid. (znodes.begin_session (Self.tree self.old) session ≡ Ok (Self.tree self.new)) × (zxid ≡ (Self.tree self.new).zxid)) }
        ensures refused { IfErr result (IsRefusal (znodes.begin_session (Self.tree self.old) session)) }
        ensures same { OnErr result (Self.tree self.new ≡ Self.tree self.old) }
        ensures disk { ChangesDisk (IsTaken (znodes.begin_session (Self.tree self.old) session)) (Self.payload_bytes (Self.tree self.old) (BeginSession session)) (answer_by answer_of_session_fault result) (Self.disk self.old) (Self.disk self.new) }
        ensures stop { IsErrOf result SessionFault.Device → Between (Self.tree self.old) (znodes.begin_session (Self.tree self.old) session) (Self.left self.new) };

    /// Ends a session, and its ephemeral znodes with it, in one transaction, and answers the zxid. `Unknown`: it isn't live.
    fn end_session(&mut self, session: i64) -> Result<i64, SessionFault>
        ensures ok { IfOk result (λ zxid. (znodes.end_session (Self.tree self.old) session ≡ Ok (Self.tree self.new)) × (zxid ≡ (Self.tree self.new).zxid)) }
        ensures refused { IfErr result (IsRefusal (znodes.end_session (Self.tree self.old) session)) }
        ensures same { OnErr result (Self.tree self.new ≡ Self.tree self.old) }
        ensures disk { ChangesDisk (IsTaken (znodes.end_session (Self.tree self.old) session)) (Self.payload_bytes (Self.tree self.old) (EndSession session)) (answer_by answer_of_session_fault result) (Self.disk self.old) (Self.disk self.new) }
        ensures stop { IsErrOf result SessionFault.Device → Between (Self.tree self.old) (znodes.end_session (Self.tree self.old) session) (Self.left self.new) };
}
