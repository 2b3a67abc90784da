//! Laws of the definitions of bodies: what is written for a migrated znode is read as it was written.
//!
//! Each law is the contract of a function that does nothing.

ghost use Rattle.std.specs.Prelude.{◌≡◌, ℕ, ℤ, true, List, Ok};
ghost use Rattle.kz_types.specs.declared.key.EntityKey.{EntityKey};
ghost use Rattle.kz_types.specs.declared.key.EntityKey.TheVariants.{Partition, Acl};
ghost use Rattle.kz_types.specs.declared.key.EntityKey.TheVariants as keys;
ghost use Rattle.kz_types.specs.declared.id.Id.{Id};
ghost use Rattle.kz_types.specs.declared.bodies.AssignmentRow.{AssignmentRow};
ghost use Rattle.kz_types.specs.declared.bodies.QuotaRow.{QuotaRow};
ghost use Rattle.kz_types.specs.declared.bodies.ScramPair.{ScramPair};
ghost use Rattle.kz_types.specs.declared.row.AclRow.{AclRow};
ghost use Rattle.kz_types.specs.declared.bodies.Pair.{Pair};
ghost use Rattle.kz_types.specs.declared.bodies.Body.TheVariants.{Topic, Config, State, Quota, Acls, Producer, Blank};
ghost use Rattle.kz_spec_data.specs.Bodies.{read_body, text_of_body, is_of_kind};
ghost use Rattle.kz_laws_values.specs.Readable.{IsConfiguration, IsState, IsBlock, AreEntries, IsAssignment, IsQuotaBody};

/// A configuration of a broker or a topic is read as it was written.
pub fn configuration_is_read()
    ensures { (key : EntityKey) (pairs : List Pair) → is_of_kind key (Config pairs) ≡ true → IsConfiguration pairs
        → read_body key (text_of_body (Config pairs)) ≡ Ok (Config pairs) }
{}

/// The state of a partition is read as it was written where its numbers are in their ranges, and those of each state that is read are.
pub fn state_is_read()
    ensures read { (topic : List ℕ) (partition leader leader_epoch controller_epoch : ℤ) (isr : List ℤ) (recovery : ℤ)
        → IsState leader leader_epoch controller_epoch isr recovery
        → read_body (Partition topic partition) (text_of_body (State leader leader_epoch controller_epoch isr recovery))
        ≡ Ok (State leader leader_epoch controller_epoch isr recovery) }
    ensures only { (topic bytes : List ℕ) (partition leader leader_epoch controller_epoch : ℤ) (isr : List ℤ) (recovery : ℤ)
        → read_body (Partition topic partition) bytes ≡ Ok (State leader leader_epoch controller_epoch isr recovery)
        → IsState leader leader_epoch controller_epoch isr recovery }
{}

/// A block of producer ids is read as it was written where its numbers are in their ranges, and those of each block that is read are.
/// An empty body is read as it was written, too.
pub fn producer_is_read()
    ensures block { (broker start end : ℤ) → IsBlock broker start end
        → read_body keys.Producer (text_of_body (Producer broker start end)) ≡ Ok (Producer broker start end) }
    ensures only { (bytes : List ℕ) (broker start end : ℤ) → read_body keys.Producer bytes ≡ Ok (Producer broker start end) → IsBlock broker start end }
    ensures blank { read_body keys.Producer (text_of_body Blank) ≡ Ok Blank }
{}

/// Access control entries are read as they were written.
pub fn entries_are_read()
    ensures { (pattern kind : ℤ) (name : List ℕ) (rows : List AclRow) → AreEntries pattern kind name rows
        → read_body (Acl pattern kind name) (text_of_body (Acls rows)) ≡ Ok (Acls rows) }
{}

/// The assignment of a topic is read as it was written.
pub fn topic_is_read()
    ensures { (name : List ℕ) (id : Id) (rows : List AssignmentRow) → IsAssignment id rows
        → read_body (keys.Topic name) (text_of_body (Topic id rows)) ≡ Ok (Topic id rows) }
{}

/// Quotas and credentials are read as they were written.
pub fn quotas_are_read()
    ensures { (key : EntityKey) (quotas : List QuotaRow) (scrams : List ScramPair)
        → is_of_kind key (Quota quotas scrams) ≡ true → IsQuotaBody key quotas scrams
        → read_body key (text_of_body (Quota quotas scrams)) ≡ Ok (Quota quotas scrams) }
{}
