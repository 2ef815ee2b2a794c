//! The lines of the summary. Each is put together without a sink, so that a sink gets it whole.

ghost use Rattle.std.specs.Prelude.{◌≡◌};
ghost use Rattle.scenario_text.specs.Text.{line};
ghost use Rattle.times_report.specs.Summary.{cpu_words, forced_words, side_words, pair_words, pending_words, replies_words, total_words};
ghost use Rattle.run_times.specs.declared.by.By.TheVariants.{Cookie, Group};

use pair_times::PairTime;
use run_summary::ReplyCounts;
use run_times::{By, RunTimes, SiblingTimes, SideBySide};
use scenario_text::Line;

pub(crate) fn cpu_line(cpu: usize, times: &SiblingTimes) -> Line
    ensures { result ≡ line (cpu_words cpu times.now) }
{
    let mut line = Line::new();
    line.text("cpu ");
    line.number(cpu);
    line.text(" ran ");
    line.number(times.ran);
    line.text(" idle ");
    line.number(times.idled);
    line.text(" offline ");
    line.number(times.offline);
    line.text(" pending ");
    line.number(times.pending);
    line.text("\n");
    line
}

pub(crate) fn forced_line(cpu: usize, times: &SiblingTimes) -> Line
    ensures { result ≡ line (forced_words cpu times.now) }
{
    let mut line = Line::new();
    line.text("forced ");
    line.number(cpu);
    line.text(" cookie ");
    line.number(times.forced_by_cookie);
    line.text(" none ");
    line.number(times.forced_by_none);
    line.text("\n");
    line
}

pub(crate) fn side_line(by: By, times: SideBySide) -> Line
    ensures { result ≡ line (side_words by times) }
{
    let mut line = Line::new();
    match by {
        By::Cookie => line.named("exposed", times.all),
        By::Group => line.named("mixed", times.all),
    }
    line.text(" ");
    line.named("longest", times.longest);
    line.text("\n");
    line
}

/// The line of a pair of cookies.
fn cookie_pair_line(pair: &PairTime) -> Line
    ensures { result ≡ line (pair_words Cookie pair.now) }
{
    let mut line = Line::new();
    line.text("pair ");
    line.number(pair.low);
    line.text(" ");
    line.number(pair.high);
    line.text(" exposed ");
    line.number(pair.time);
    line.text("\n");
    line
}

/// The line of a pair of thread groups.
fn group_pair_line(pair: &PairTime) -> Line
    ensures { result ≡ line (pair_words Group pair.now) }
{
    let mut line = Line::new();
    line.text("groups ");
    line.number(pair.low);
    line.text(" ");
    line.number(pair.high);
    line.text(" mixed ");
    line.number(pair.time);
    line.text("\n");
    line
}

pub(crate) fn pair_line(by: By, pair: &PairTime) -> Line
    ensures { result ≡ line (pair_words by pair.now) }
{
    match by {
        By::Cookie => cookie_pair_line(pair),
        By::Group => group_pair_line(pair),
    }
}

pub(crate) fn pending_line(times: &RunTimes) -> Line
    ensures { result ≡ line (pending_words times.now) }
{
    let mut line = Line::new();
    line.named("pending", times.pending());
    line.text("\n");
    line
}

pub(crate) fn replies_line(counts: &ReplyCounts) -> Line
    ensures { result ≡ line (replies_words counts.now) }
{
    let mut line = Line::new();
    line.text("replies NoTask ");
    line.number(counts.no_task);
    line.text(" Awake ");
    line.number(counts.awake);
    line.text(" Idle ");
    line.number(counts.idle);
    line.text(" NoCaller ");
    line.number(counts.no_caller);
    line.text(" Offline ");
    line.number(counts.offline);
    line.text(" errors ");
    line.number(counts.errors);
    line.text("\n");
    line
}

pub(crate) fn total_line(times: &RunTimes) -> Line
    ensures { result ≡ line (total_words times.now) }
{
    let mut line = Line::new();
    line.named("total", times.total());
    line.text("\n");
    line
}
