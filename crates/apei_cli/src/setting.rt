// The options of the command line.
ghost use Rattle.std.specs.Prelude.{◌≡◌};
ghost use Rattle.apei_cli.specs.CommandWords.{belongs, name_of};

use crate::Job;

/// An option, which has one value.
#[derive(Clone, Copy)]
pub(crate) enum Setting {
    Image,
    Sector,
    PerSlot,
    Slots,
    Steps,
    Cut,
    Fail,
    FailRead,
    Torn,
    Count,
    Seed,
    Show,
}

/// Each option once.
pub(crate) const SETTINGS: [Setting; 12] = [
    Setting::Image,
    Setting::Sector,
    Setting::PerSlot,
    Setting::Slots,
    Setting::Steps,
    Setting::Cut,
    Setting::Fail,
    Setting::FailRead,
    Setting::Torn,
    Setting::Count,
    Setting::Seed,
    Setting::Show,
];

impl Setting {
    /// What stands behind `--`.
    pub(crate) fn name<'a>(self) -> &'a str
        ensures { result.now ≡ name_of self }
    {
        match self {
            Setting::Image => "image",
            Setting::Sector => "sector",
            Setting::PerSlot => "per-slot",
            Setting::Slots => "slots",
            Setting::Steps => "steps",
            Setting::Cut => "cut",
            Setting::Fail => "fail",
            Setting::FailRead => "fail-read",
            Setting::Torn => "torn",
            Setting::Count => "count",
            Setting::Seed => "seed",
            Setting::Show => "show",
        }
    }

    /// Whether the option may be given with a job.
    pub(crate) fn belongs_to(self, job: Job) -> bool
        ensures { result ≡ belongs self job }
    {
        match self {
            Setting::Image => matches!(job, Job::Play),
            Setting::Sector | Setting::PerSlot | Setting::Slots | Setting::Steps => {
                !matches!(job, Job::Check | Job::Hub)
            }
            Setting::Cut | Setting::Fail | Setting::FailRead | Setting::Torn => {
                matches!(job, Job::Sim)
            }
            Setting::Count | Setting::Seed => matches!(job, Job::Gen),
            Setting::Show => matches!(job, Job::Check),
        }
    }
}
