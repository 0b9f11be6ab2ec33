//! What holds of every script.
//!
//! The function here does nothing: its contract is a law over the definitions of what is written
//! for a script.
ghost use Rattle.std.specs.Prelude.{ℕ, List, [], length};
ghost use Rattle.channel_model.specs.declared.step.Kind.{Kind};
ghost use Rattle.channel_model.specs.Past.{Past};
ghost use Rattle.channel_model.specs.Capacity.{HasPositiveCapacity};
ghost use Rattle.channel_model.specs.Legal.{IsLegal};
ghost use Rattle.channel_model.specs.Polling.{Settles, finished_polls, settling_polls};
ghost use Rattle.chanrun.specs.Script.{past_after_all};
ghost use Rattle.chanrun.specs.declared.grammar.command.Command.{Command};

use channel_model::laws;

/// Behind every list of a script's commands stands a past that can come about, and the polls by
/// which a script settles the channel there are a complete settling.
///
/// # Examples
///
/// ```
/// let script = b"unbounded\nrecv o0 r0\npoll o0\ntry_send s0 7\nsettle\nsettle\n";
/// let mut reader = FromStd::new(script.as_slice());
/// let mut writer = FromStd::new(Vec::new(rt.alloc()));
/// assert_eq!(rt; run_script(rt.alloc(), &mut reader, &mut writer), Ok(()));
///
/// // The receive was told, and is polled once. Then nobody is told.
/// let replies = b"done\npending\nok\nsettled 1 1\no0 ok 7\nsettled 0 0\n";
/// let written: Vec<u8> = writer.into_inner();
/// assert_eq!(rt; written.as_slice(), replies.as_slice());
/// ```
pub fn scripts_settle()
    ensures legal { (kind : Kind) (commands : List Command) → HasPositiveCapacity kind
        → IsLegal kind (past_after_all kind [] commands) }
    ensures settled { (kind : Kind) (past : Past ℕ) → IsLegal kind past
        → Settles kind past (settling_polls kind past) (length (settling_polls kind past))
        (finished_polls (settling_polls kind past)) }
{
    laws::answers_make_legal_pasts::<u64>();
    laws::any_order::<u64>();
    laws::can_be_settled::<u64>();
}
