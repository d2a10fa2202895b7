//! The record of a started repair in 71 words.

#![tactic(auto)]

ghost use Rattle.std.specs.Prelude.{◌≡◌, true, length};
ghost use Rattle.record.specs.Records.{running_in};
ghost use Rattle.repair_words.specs.RepairWords.{is_repair, repair_from, repair_words_of};

use record::Running;

// The record that a repair's words tell.
pub fn running_of(words: &[u64]) -> Running
    requires { is_repair words.now ≡ true }
    ensures { running_in result ≡ repair_from words.now }
{
    let mut fresh = [0u8; 32];
    repair_parts::fill_bytes(&words[3..7], &mut fresh);
    let mut helpers = [0u8; 256];
    repair_parts::fill_bytes(&words[7..39], &mut helpers);
    let mut stand_ins = [0u8; 256];
    repair_parts::fill_bytes(&words[39..71], &mut stand_ins);
    Running {
        running: words[0] == 1,
        count: words[1] as usize,
        carried: words[2] as usize,
        fresh: fresh,
        helpers: helpers,
        stand_ins: stand_ins,
    }
}

// The words that tell a repair's record.
pub fn put_running(running: Running, words: &mut [u64])
    requires { length words.old ≡ 71 }
    ensures { words.new ≡ repair_words_of (running_in running) }
{
    let fresh = running.fresh;
    let helpers = running.helpers;
    let stand_ins = running.stand_ins;
    words[0] = running.running as u64;
    words[1] = running.count as u64;
    words[2] = running.carried as u64;
    repair_parts::put_packed(&fresh, &mut words[3..7]);
    repair_parts::put_packed(&helpers, &mut words[7..39]);
    repair_parts::put_packed(&stand_ins, &mut words[39..71]);
}
