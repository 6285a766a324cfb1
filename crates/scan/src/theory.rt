// The scan and the watch over lists keep their promises. The calls do nothing: their contracts are the laws.
ghost use Rattle.scan.specs.Standing.{BeginsRight, StepsRight};
ghost use Rattle.scan.specs.Watching.{WatchBeginsRight, WatchStepsRight};
ghost use Rattle.scan.specs.Runs.{ScanRunsRight, WatchRunsRight};

// The scan ------------------------------------------------------------------------------------------------------

// Before any event it stands for no events and no orders.
pub fn begins_right_stands()
    ensures { BeginsRight }
{}

// Each call of it keeps the promise, and it stands after the call.
pub fn steps_right_stands()
    ensures { StepsRight }
{}

// Any calls since its beginning keep the promise, and no other answers to them do.
pub fn scan_runs_right_stands()
    ensures { ScanRunsRight }
{}

// The watch -----------------------------------------------------------------------------------------------------

pub fn watch_begins_right_stands()
    ensures { WatchBeginsRight }
{}

pub fn watch_steps_right_stands()
    ensures { WatchStepsRight }
{}

pub fn watch_runs_right_stands()
    ensures { WatchRunsRight }
{}
