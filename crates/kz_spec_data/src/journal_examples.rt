//! Laws by example: journals, byte by byte.
ghost use Rattle.std.specs.Prelude.{◌≡◌, [], ◌∷◌, ◌++◌, true, false, codes};
ghost use Rattle.kz_spec_data.specs.Frames.{tree_letter, log_letter, new_file, frame_written, seal_written, plain_header, journal_of};

/// Files without frames: of both formats, with a closed gate or none, cut within the header, and of another letter.
#[tactic(auto, unfolding(crate::proofs::FilesOnLiterals::files_on_literals))]
pub fn headers()
    ensures new { new_file tree_letter ≡ (codes "KZ-JOURNAL T 02\n" ++ 0x00 ∷ []) }
    ensures summed { journal_of tree_letter (codes "KZ-JOURNAL T 02\n" ++ 0x00 ∷ []) ≡ record { frames = []; end = 16; summed = true; damaged = false } }
    ensures plain { journal_of tree_letter (codes "KZ-JOURNAL T 01\n" ++ 0x00 ∷ []) ≡ record { frames = []; end = 16; summed = false; damaged = false } }
    ensures no_gate { journal_of tree_letter (codes "KZ-JOURNAL T 02\n" ++ []) ≡ record { frames = []; end = 16; summed = true; damaged = false } }
    ensures empty { journal_of tree_letter [] ≡ record { frames = []; end = 0; summed = false; damaged = true } }
    ensures cut { journal_of tree_letter (codes "KZ-JOURNAL T 02") ≡ record { frames = []; end = 0; summed = false; damaged = true } }
    ensures letter { journal_of log_letter (codes "KZ-JOURNAL T 02\n" ++ 0x00 ∷ []) ≡ record { frames = []; end = 0; summed = false; damaged = true } }
    ensures log { journal_of log_letter (codes "KZ-JOURNAL L 01\n" ++ 0x00 ∷ []) ≡ record { frames = []; end = 16; summed = false; damaged = false } }
{}

/// Frames without sums: two of them, whatever stands behind a gate that isn't open; the second one cut; a seal's length where no seal fits.
#[tactic(auto, unfolding(crate::proofs::FilesOnLiterals::files_on_literals))]
pub fn plain_frames()
    ensures written { frame_written false (0x01 ∷ 0x02 ∷ []) ≡ (0x00 ∷ 0x00 ∷ 0x00 ∷ 0x02 ∷ 0x01 ∷ 0x02 ∷ []) }
    ensures two { journal_of tree_letter (codes "KZ-JOURNAL T 01\n" ++ 0xa5 ∷ 0x00 ∷ 0x00 ∷ 0x00 ∷ 0x02 ∷ 0x01 ∷ 0x02 ∷ 0xa5 ∷ 0x00 ∷ 0x00 ∷ 0x00 ∷ 0x01 ∷ 0x07 ∷ 0x00 ∷ []) ≡ record { frames = record { at = 16; payload = 0x01 ∷ 0x02 ∷ [] } ∷ record { at = 23; payload = 0x07 ∷ [] } ∷ []; end = 29; summed = false; damaged = false } }
    ensures junk { journal_of tree_letter (codes "KZ-JOURNAL T 01\n" ++ 0xa5 ∷ 0x00 ∷ 0x00 ∷ 0x00 ∷ 0x02 ∷ 0x01 ∷ 0x02 ∷ 0x00 ∷ 0x00 ∷ 0x00 ∷ 0x00 ∷ 0x01 ∷ 0x07 ∷ []) ≡ record { frames = record { at = 16; payload = 0x01 ∷ 0x02 ∷ [] } ∷ []; end = 23; summed = false; damaged = false } }
    ensures gate { journal_of tree_letter (codes "KZ-JOURNAL T 01\n" ++ 0xa5 ∷ 0x00 ∷ 0x00 ∷ 0x00 ∷ 0x02 ∷ 0x01 ∷ 0x02 ∷ 0x7f ∷ 0x00 ∷ 0x00 ∷ 0x00 ∷ 0x01 ∷ 0x07 ∷ 0x00 ∷ []) ≡ record { frames = record { at = 16; payload = 0x01 ∷ 0x02 ∷ [] } ∷ []; end = 23; summed = false; damaged = false } }
    ensures cut { journal_of tree_letter (codes "KZ-JOURNAL T 01\n" ++ 0xa5 ∷ 0x00 ∷ 0x00 ∷ 0x00 ∷ 0x02 ∷ 0x01 ∷ 0x02 ∷ 0xa5 ∷ 0x00 ∷ 0x00 ∷ 0x00 ∷ 0x01 ∷ []) ≡ record { frames = record { at = 16; payload = 0x01 ∷ 0x02 ∷ [] } ∷ []; end = 23; summed = false; damaged = false } }
    ensures cut_length { journal_of tree_letter (codes "KZ-JOURNAL T 01\n" ++ 0xa5 ∷ 0x00 ∷ 0x00 ∷ 0x00 ∷ 0x02 ∷ 0x01 ∷ 0x02 ∷ 0xa5 ∷ 0x00 ∷ 0x00 ∷ 0x00 ∷ []) ≡ record { frames = record { at = 16; payload = 0x01 ∷ 0x02 ∷ [] } ∷ []; end = 23; summed = false; damaged = false } }
    ensures cut_seal { journal_of tree_letter (codes "KZ-JOURNAL T 01\n" ++ 0xa5 ∷ 0x00 ∷ 0x00 ∷ 0x00 ∷ 0x02 ∷ 0x01 ∷ 0x02 ∷ 0xa5 ∷ 0xff ∷ 0xff ∷ 0xff ∷ 0xff ∷ 0x00 ∷ 0x00 ∷ 0x00 ∷ []) ≡ record { frames = record { at = 16; payload = 0x01 ∷ 0x02 ∷ [] } ∷ []; end = 23; summed = false; damaged = false } }
{}

/// Frames with sums: a byte of the payload, of the sum or of the length that another stands for is found out, and a cut frame is the end.
#[tactic(auto, unfolding(crate::proofs::FilesOnLiterals::files_on_literals))]
pub fn summed_frames()
    ensures written { frame_written true (0x01 ∷ 0x02 ∷ []) ≡ (0x00 ∷ 0x00 ∷ 0x00 ∷ 0x02 ∷ 0xea ∷ 0xdc ∷ 0xc6 ∷ 0x07 ∷ 0x01 ∷ 0x02 ∷ []) }
    ensures two { journal_of tree_letter (codes "KZ-JOURNAL T 02\n" ++ 0xa5 ∷ 0x00 ∷ 0x00 ∷ 0x00 ∷ 0x02 ∷ 0xea ∷ 0xdc ∷ 0xc6 ∷ 0x07 ∷ 0x01 ∷ 0x02 ∷ 0xa5 ∷ 0x00 ∷ 0x00 ∷ 0x00 ∷ 0x01 ∷ 0x82 ∷ 0x1a ∷ 0x8a ∷ 0xa9 ∷ 0x07 ∷ 0x00 ∷ []) ≡ record { frames = record { at = 16; payload = 0x01 ∷ 0x02 ∷ [] } ∷ record { at = 27; payload = 0x07 ∷ [] } ∷ []; end = 37; summed = true; damaged = false } }
    ensures payload { journal_of tree_letter (codes "KZ-JOURNAL T 02\n" ++ 0xa5 ∷ 0x00 ∷ 0x00 ∷ 0x00 ∷ 0x02 ∷ 0xea ∷ 0xdc ∷ 0xc6 ∷ 0x07 ∷ 0x01 ∷ 0x02 ∷ 0xa5 ∷ 0x00 ∷ 0x00 ∷ 0x00 ∷ 0x01 ∷ 0x82 ∷ 0x1a ∷ 0x8a ∷ 0xa9 ∷ 0x06 ∷ 0x00 ∷ []) ≡ record { frames = record { at = 16; payload = 0x01 ∷ 0x02 ∷ [] } ∷ []; end = 27; summed = true; damaged = true } }
    ensures sum { journal_of tree_letter (codes "KZ-JOURNAL T 02\n" ++ 0xa5 ∷ 0x00 ∷ 0x00 ∷ 0x00 ∷ 0x02 ∷ 0xeb ∷ 0xdc ∷ 0xc6 ∷ 0x07 ∷ 0x01 ∷ 0x02 ∷ 0xa5 ∷ 0x00 ∷ 0x00 ∷ 0x00 ∷ 0x01 ∷ 0x82 ∷ 0x1a ∷ 0x8a ∷ 0xa9 ∷ 0x07 ∷ 0x00 ∷ []) ≡ record { frames = []; end = 16; summed = true; damaged = true } }
    ensures shorter { journal_of tree_letter (codes "KZ-JOURNAL T 02\n" ++ 0xa5 ∷ 0x00 ∷ 0x00 ∷ 0x00 ∷ 0x01 ∷ 0xea ∷ 0xdc ∷ 0xc6 ∷ 0x07 ∷ 0x01 ∷ 0x02 ∷ 0xa5 ∷ 0x00 ∷ 0x00 ∷ 0x00 ∷ 0x01 ∷ 0x82 ∷ 0x1a ∷ 0x8a ∷ 0xa9 ∷ 0x07 ∷ 0x00 ∷ []) ≡ record { frames = []; end = 16; summed = true; damaged = true } }
    ensures longer { journal_of tree_letter (codes "KZ-JOURNAL T 02\n" ++ 0xa5 ∷ 0x00 ∷ 0x00 ∷ 0x00 ∷ 0x02 ∷ 0xea ∷ 0xdc ∷ 0xc6 ∷ 0x07 ∷ 0x01 ∷ 0x02 ∷ 0xa5 ∷ 0x00 ∷ 0x00 ∷ 0x00 ∷ 0x81 ∷ 0x82 ∷ 0x1a ∷ 0x8a ∷ 0xa9 ∷ 0x07 ∷ 0x00 ∷ []) ≡ record { frames = record { at = 16; payload = 0x01 ∷ 0x02 ∷ [] } ∷ []; end = 27; summed = true; damaged = false } }
    ensures cut { journal_of tree_letter (codes "KZ-JOURNAL T 02\n" ++ 0xa5 ∷ 0x00 ∷ 0x00 ∷ 0x00 ∷ 0x02 ∷ 0xea ∷ 0xdc ∷ 0xc6 ∷ 0x07 ∷ 0x01 ∷ 0x02 ∷ 0xa5 ∷ 0x00 ∷ 0x00 ∷ 0x00 ∷ 0x01 ∷ 0x82 ∷ 0x1a ∷ 0x8a ∷ 0xa9 ∷ []) ≡ record { frames = record { at = 16; payload = 0x01 ∷ 0x02 ∷ [] } ∷ []; end = 27; summed = true; damaged = false } }
    ensures no_seal { journal_of tree_letter (codes "KZ-JOURNAL T 02\n" ++ 0xa5 ∷ 0x00 ∷ 0x00 ∷ 0x00 ∷ 0x02 ∷ 0xea ∷ 0xdc ∷ 0xc6 ∷ 0x07 ∷ 0x01 ∷ 0x02 ∷ 0xa5 ∷ 0xff ∷ 0xff ∷ 0xff ∷ 0xff ∷ 0x00 ∷ 0x7b ∷ 0x8b ∷ 0xac ∷ 0x00 ∷ []) ≡ record { frames = record { at = 16; payload = 0x01 ∷ 0x02 ∷ [] } ∷ []; end = 27; summed = true; damaged = false } }
{}

/// A seal: of an empty file, of 26 bytes then, and after a frame; frames have sums after it. A bit of its sum is found out.
#[tactic(auto, unfolding(crate::proofs::FilesOnLiterals::files_on_literals))]
pub fn seals()
    ensures written { seal_written (plain_header tree_letter) ≡ (0xff ∷ 0xff ∷ 0xff ∷ 0xff ∷ 0xe5 ∷ 0x86 ∷ 0xce ∷ 0xb3 ∷ []) }
    ensures empty { journal_of tree_letter (codes "KZ-JOURNAL T 01\n" ++ 0xa5 ∷ 0xff ∷ 0xff ∷ 0xff ∷ 0xff ∷ 0xe5 ∷ 0x86 ∷ 0xce ∷ 0xb3 ∷ 0x00 ∷ []) ≡ record { frames = []; end = 25; summed = true; damaged = false } }
    ensures after { journal_of tree_letter (codes "KZ-JOURNAL T 01\n" ++ 0xa5 ∷ 0x00 ∷ 0x00 ∷ 0x00 ∷ 0x02 ∷ 0x01 ∷ 0x02 ∷ 0xa5 ∷ 0xff ∷ 0xff ∷ 0xff ∷ 0xff ∷ 0x82 ∷ 0x87 ∷ 0x78 ∷ 0x3d ∷ 0xa5 ∷ 0x00 ∷ 0x00 ∷ 0x00 ∷ 0x01 ∷ 0x82 ∷ 0x1a ∷ 0x8a ∷ 0xa9 ∷ 0x07 ∷ 0x00 ∷ []) ≡ record { frames = record { at = 16; payload = 0x01 ∷ 0x02 ∷ [] } ∷ record { at = 32; payload = 0x07 ∷ [] } ∷ []; end = 42; summed = true; damaged = false } }
    ensures plain_after { journal_of tree_letter (codes "KZ-JOURNAL T 01\n" ++ 0xa5 ∷ 0xff ∷ 0xff ∷ 0xff ∷ 0xff ∷ 0xe5 ∷ 0x86 ∷ 0xce ∷ 0xb3 ∷ 0xa5 ∷ 0x00 ∷ 0x00 ∷ 0x00 ∷ 0x06 ∷ 0x00 ∷ 0x00 ∷ 0x00 ∷ 0x00 ∷ 0x01 ∷ 0x02 ∷ 0x00 ∷ 0x00 ∷ 0x00 ∷ 0x00 ∷ 0x00 ∷ 0x00 ∷ 0x00 ∷ 0x00 ∷ []) ≡ record { frames = []; end = 25; summed = true; damaged = true } }
    ensures sum { journal_of tree_letter (codes "KZ-JOURNAL T 01\n" ++ 0xa5 ∷ 0xff ∷ 0xff ∷ 0xff ∷ 0xff ∷ 0xe5 ∷ 0x86 ∷ 0xce ∷ 0xb2 ∷ 0x00 ∷ []) ≡ record { frames = []; end = 16; summed = false; damaged = true } }
{}
