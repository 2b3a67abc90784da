//! Laws by example: words, what `init` refuses, what is told, and how long a file is after a load.
ghost use Rattle.std.specs.Prelude.{◌≡◌, [], ◌∷◌, ◌++◌, Some, None, true, false, pos, negsuc, codes};
ghost use Rattle.kz_types.specs.declared.outside.Status.TheVariants as status;
ghost use Rattle.kz_types.specs.declared.fault.LogWhy.TheVariants as why;
ghost use Rattle.kz_spec_data.specs.Tree.{empty_tree};
ghost use Rattle.kz_spec_data.specs.Log.{empty_log};
ghost use Rattle.kz_spec_data.specs.Frames.{tree_letter, log_letter, new_file, journal_of};
ghost use Rattle.kz_spec_machine.specs.Words.{Init, Load, Replay, Upgrade, Tell, Generate, DumpTree, DumpLog, Render, RenderAt, Check, Figures, command_of_words};
ghost use Rattle.kz_spec_machine.specs.Files.{damage};
ghost use Rattle.kz_spec_machine.specs.Init.{init_refusal};
ghost use Rattle.kz_spec_machine.specs.Load.{file_with_load};
ghost use Rattle.kz_spec_machine.specs.Reports.{printed, refused, report_of, script_of};

/// The words of each command, and words that name none.
#[tactic(auto, unfolding(crate::proofs::CommandsOnLiterals::commands_on_literals))]
pub fn words()
    ensures init { command_of_words (codes "init" ∷ []) ≡ Some Init }
    ensures load { command_of_words (codes "load" ∷ []) ≡ Some Load }
    ensures replay { command_of_words (codes "replay" ∷ []) ≡ Some Replay }
    ensures upgrade { command_of_words (codes "upgrade" ∷ []) ≡ Some Upgrade }
    ensures dump_tree { command_of_words (codes "dump-tree" ∷ []) ≡ Some (Tell DumpTree) }
    ensures dump_log { command_of_words (codes "dump-log" ∷ []) ≡ Some (Tell DumpLog) }
    ensures render { command_of_words (codes "render" ∷ []) ≡ Some (Tell Render) }
    ensures check { command_of_words (codes "check" ∷ []) ≡ Some (Tell Check) }
    ensures figures { command_of_words (codes "status" ∷ []) ≡ Some (Tell Figures) }
    ensures none { command_of_words [] ≡ None }
    ensures two { command_of_words (codes "init" ∷ codes "x" ∷ []) ≡ None }
    ensures other { command_of_words (codes "inits" ∷ []) ≡ None }
{}

/// A command and a number: an offset is a canonical decimal, and a count has no leading zero.
#[tactic(auto, unfolding(crate::proofs::CommandsOnLiterals::commands_on_literals))]
pub fn words_with_a_number()
    ensures offset { command_of_words (codes "render" ∷ codes "0" ∷ []) ≡ Some (Tell (RenderAt 0)) }
    ensures greatest { command_of_words (codes "render" ∷ codes "2147483647" ∷ []) ≡ Some (Tell (RenderAt 2147483647)) }
    ensures above { command_of_words (codes "render" ∷ codes "2147483648" ∷ []) ≡ None }
    ensures negative { command_of_words (codes "render" ∷ codes "-1" ∷ []) ≡ None }
    ensures count { command_of_words (codes "generate" ∷ codes "100000" ∷ []) ≡ Some (Generate (Some 100000)) }
    ensures too_many { command_of_words (codes "generate" ∷ codes "100001" ∷ []) ≡ Some (Generate None) }
    ensures far_too_many { command_of_words (codes "generate" ∷ codes "99999999999999999999999" ∷ []) ≡ Some (Generate None) }
    ensures zero { command_of_words (codes "generate" ∷ codes "0" ∷ []) ≡ None }
    ensures leading { command_of_words (codes "generate" ∷ codes "01" ∷ []) ≡ None }
    ensures three { command_of_words (codes "render" ∷ codes "1" ∷ codes "1" ∷ []) ≡ None }
{}

/// Files that are empty, or that were being made when the program was stopped, are taken by `init`, and read by no other command.
#[tactic(auto, unfolding(crate::proofs::CommandsOnLiterals::commands_on_literals))]
pub fn files()
    ensures none { init_refusal [] [] ≡ None }
    ensures cut { init_refusal (codes "KZ-JOURNAL T 02\n") (codes "KZ-J") ≡ None }
    ensures whole { init_refusal (new_file tree_letter) (new_file log_letter) ≡ None }
    ensures unmade { damage [] [] ≡ Some (status.TreeDamaged 0) }
    ensures no_log { damage (new_file tree_letter) [] ≡ Some (status.LogDamaged 0 why.Header) }
    ensures read { damage (new_file tree_letter) (new_file log_letter) ≡ None }
    ensures swapped { init_refusal (new_file log_letter ++ 0 ∷ []) [] ≡ Some (status.TreeDamaged 0) }
    ensures reset { init_refusal [] (codes "KZ-JOURNAL L 01\n" ++ 0xa5 ∷ 0 ∷ 0 ∷ 0 ∷ 5 ∷ 2 ∷ 0 ∷ 0 ∷ 0 ∷ 0 ∷ 0 ∷ []) ≡ Some status.NotEmpty }
{}

/// What is told of an empty tree and an empty log, and of a script that is too long.
#[tactic(auto, unfolding(crate::proofs::CommandsOnLiterals::commands_on_literals))]
pub fn reports()
    ensures tree { report_of DumpTree empty_tree empty_log ≡ printed (codes "{\"sessions\":[],\"zxid\":0}\n") }
    ensures log { report_of DumpLog empty_tree empty_log ≡ printed (codes "{\"base\":-1,\"end\":-1,\"epoch\":0}\n") }
    ensures no_offset { report_of (RenderAt 0) empty_tree empty_log ≡ refused (status.NoOffset (negsuc 0) (negsuc 0)) }
    ensures check { report_of Check empty_tree empty_log ≡ printed (codes "unmigrated\n") }
    ensures figures { report_of Figures empty_tree empty_log ≡ printed (codes "zxid 0\nznodes 0\nepoch 0\nbase -1\nend -1\nmigration 0\nrecorded none\n") }
    ensures too_long { script_of None ≡ refused (status.Limit 14 100000) }
{}

/// A tree without znodes makes a new file 37 bytes longer: frames with 6 and 13 bytes, and 9 bytes around each.
#[tactic(auto, unfolding(crate::proofs::CommandsOnLiterals::commands_on_literals))]
pub fn loads()
    ensures length { (file_with_load empty_tree (journal_of tree_letter (new_file tree_letter)) 17).length ≡ 54 }
{}
