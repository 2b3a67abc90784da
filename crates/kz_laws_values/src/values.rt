//! Laws of the definitions of bodies: what a controller writes into a control znode is read as it was written.
//!
//! Each law is the contract of a function that does nothing.

ghost use Rattle.std.specs.Prelude.{◌≡◌, ◌≤ℤ◌, ℤ, Ok, Some, FitsSigned};
ghost use Rattle.kz_types.specs.declared.machine.Recorded.{Recorded};
ghost use Rattle.kz_spec_data.specs.Control.{written_epoch, read_epoch, written_control, shown_epoch, written_recorded, read_recorded};
ghost use Rattle.kz_laws_values.specs.Ranges.{IsEpoch, IsLong, IsRecorded};

/// A number that was written to `/controller_epoch` is read there.
pub fn epoch_is_read()
    ensures { (epoch : ℤ) → IsEpoch epoch → read_epoch (written_epoch epoch) ≡ Ok epoch }
{}

/// What a KRaft controller wrote to `/controller` shows its epoch, whatever its id and the time.
pub fn control_is_read()
    ensures { (id epoch now : ℤ) → IsLong id → IsEpoch epoch → IsLong now
        → shown_epoch (written_control id epoch now) ≡ Some epoch }
{}

/// What was written to `/migration` is read there.
pub fn recorded_is_read()
    ensures { (recorded : Recorded) → IsRecorded recorded → read_recorded (written_recorded recorded) ≡ Ok recorded }
{}
