//! The lines that some answers print.
ghost use Rattle.std.specs.Prelude.{◌≡◌, [], ◌∷◌, None, Some, pos, negsuc, codes};
ghost use Rattle.kz_types.specs.declared.machine.DriverState.TheVariants.{WaitForBrokers, BecomeController, DualWrite};
ghost use Rattle.kz_types.specs.declared.fault.BodyFault.TheVariants as fault;
ghost use Rattle.kz_types.specs.declared.fault.ReadWhy.TheVariants as read;
ghost use Rattle.kz_types.specs.declared.fault.LogWhy.TheVariants as why;
ghost use Rattle.kz_types.specs.declared.record.BatchFault.TheVariants.{BadCrc};
ghost use Rattle.kz_types.specs.declared.machine.Reply.TheVariants as reply;
ghost use Rattle.kz_types.specs.declared.machine.Verdict.TheVariants as verdict;
ghost use Rattle.kz_types.specs.declared.machine.Answer.TheVariants as answer;
ghost use Rattle.kz_types.specs.declared.outside.Status.TheVariants as status;
ghost use Rattle.kz_spec_data.specs.Replies.{reply_lines, summary_line};
ghost use Rattle.kz_spec_data.specs.Statuses.{status_text};

/// The lines of a first migration.
#[tactic(auto, unfolding(crate::proofs::LinesOnLiterals::lines_on_literals))]
pub fn a_migration()
    ensures quorum { reply_lines 1 answer.Done ≡ codes "1 done\n" }
    ensures start { reply_lines 2 answer.Done ≡ codes "2 done\n" }
    ensures elect { reply_lines 3 (answer.Elected (pos 1) (pos 1)) ≡ codes "3 elected 1 1\n" }
    ensures turn { reply_lines 4 (answer.Turn (
        reply.Moved WaitForBrokers ∷ reply.Looked ∷ reply.Moved BecomeController ∷ reply.Looked ∷ reply.Claimed (pos 1)
        ∷ reply.Read 0 ∷ reply.Appended (pos 2) ∷ reply.Appended (pos 4) ∷ reply.Looked ∷ reply.Read 0
        ∷ reply.Recorded (pos 4) ∷ reply.Moved DualWrite ∷ reply.Idle ∷ []))
        ≡ codes "4 moved WAIT_FOR_BROKERS\n4 looked\n4 moved BECOME_CONTROLLER\n4 looked\n4 claimed 1\n4 read 0\n4 appended 2\n4 appended 4\n4 looked\n4 read 0\n4 recorded 4\n4 moved DUAL_WRITE\n4 idle\n" }
    ensures check { reply_lines 5 (answer.Check (verdict.Closed (pos 4))) ≡ codes "5 closed 4\n" }
    ensures summary { summary_line 5 13 (pos 2) (pos 4) (Some (pos 4)) ≡ codes "end events=5 steps=13 zxid=2 offset=4 recorded=4\n" }
{}

/// The lines of a run without input, of refusals and of verdicts.
#[tactic(auto, unfolding(crate::proofs::LinesOnLiterals::lines_on_literals))]
pub fn other_lines()
    ensures summary { summary_line 0 0 (pos 0) (negsuc 0) None ≡ codes "end events=0 steps=0 zxid=0 offset=-1 recorded=none\n" }
    ensures running { reply_lines 5 (answer.Running (pos 3000)) ≡ codes "5 running 3000\n" }
    ensures over { reply_lines 12 (answer.Over 2) ≡ codes "12 over 2\n" }
    ensures ahead { reply_lines 6 (answer.Check (verdict.Ahead (pos 4) (record { path = codes "/a"; offset = pos 5 } ∷ []))) ≡ codes "6 ahead 4 1\n" }
    ensures disagrees { reply_lines 6 (answer.Check (verdict.Disagrees (codes "/a\"b"))) ≡ codes "6 disagrees \"/a\\\"b\"\n" }
{}

/// The lines of ZooKeeper clients' answers, and of other answers.
#[tactic(auto, unfolding(crate::proofs::LinesOnLiterals::lines_on_literals))]
pub fn client_lines()
    ensures done { reply_lines 9 (answer.DoneAt (pos 12)) ≡ codes "9 done 12\n" }
    ensures known { reply_lines 9 answer.Known ≡ codes "9 known\n" }
    ensures unknown { reply_lines 9 answer.Unknown ≡ codes "9 unknown\n" }
    ensures reserved { reply_lines 9 (answer.Reserved (codes "/controller/a")) ≡ codes "9 reserved \"/controller/a\"\n" }
    ensures holds { reply_lines 9 (answer.KraftHolds (codes "/controller")) ≡ codes "9 kraft-holds \"/controller\"\n" }
    ensures refused { reply_lines 9 (answer.Refused 0 (negsuc 109)) ≡ codes "9 refused 0 -110\n" }
    ensures over { reply_lines 9 (answer.OverOp 1 2) ≡ codes "9 over-op 1 2\n" }
    ensures bad { reply_lines 9 (answer.BadRecord 1 3) ≡ codes "9 bad-record 1 3\n" }
    ensures after { reply_lines 9 (answer.Behind (pos 4) (pos 5)) ≡ codes "9 behind 4 5\n" }
{}

/// The lines of a turn that can't translate a znode. A step without a line prints none.
#[tactic(auto, unfolding(crate::proofs::LinesOnLiterals::lines_on_literals))]
pub fn untranslatable_lines()
    ensures stray { reply_lines 4 (answer.Turn (reply.Untranslatable (codes "/config/brokers/x") read.Stray ∷ [])) ≡ codes "4 untranslatable \"/config/brokers/x\" stray\n" }
    ensures field { reply_lines 4 (answer.Turn (reply.Read 1 ∷ reply.Untranslatable (codes "/a") (read.Body (fault.BadField (codes "config"))) ∷ []))
        ≡ codes "4 read 1\n4 untranslatable \"/a\" bad-field \"config\"\n" }
    ensures over { reply_lines 4 (answer.Turn (reply.Untranslatable (codes "/a") (read.Over 2) ∷ [])) ≡ codes "4 untranslatable \"/a\" over 2\n" }
    ensures silent { reply_lines 4 (answer.Turn (reply.Looked ∷ reply.NoMemory ∷ [])) ≡ codes "4 looked\n" }
{}

/// The texts of some endings.
#[tactic(auto, unfolding(crate::proofs::LinesOnLiterals::lines_on_literals))]
pub fn endings()
    ensures script { status_text (status.Script 5) ≡ codes "script line 5" }
    ensures limit { status_text (status.Limit 10 2097152) ≡ codes "limit 10" }
    ensures tree { status_text (status.TreeDamaged 16) ≡ codes "tree damaged at 16" }
    ensures log { status_text (status.LogDamaged 241 why.Sum) ≡ codes "log damaged at 241 sum" }
    ensures crc { status_text (status.LogDamaged 16 (why.Batch (BadCrc 0x00ab12ff 0xe3069283))) ≡ codes "log damaged at 16 crc 00ab12ff e3069283" }
{}
