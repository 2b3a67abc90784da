//! Laws of scripts: what is true of the events of every script, and of the worlds that they lead to.
//!
//! A law is the contract of a function that does nothing.
#![tactic(auto)]

ghost use Rattle.kz_laws_scripts.specs.Scripts.{ScriptsAreLawful, ScriptsKeepSound, ScriptsStayInStep};

/// The events that the lines of a script give are lawful. So from every sound world on the world after them is sound, and each turn
/// that ends idle in dual write leaves the tree in step with the log.
pub fn scripts_stay_in_step()
    ensures lawful { ScriptsAreLawful }
    ensures sound { ScriptsKeepSound }
    ensures step { ScriptsStayInStep }
{}
