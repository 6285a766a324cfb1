// What holds of every lawful book, since each can be made ready. The calls do nothing: their contracts are the laws.
ghost use Rattle.ready.specs.Laws.{AnswersExist, ItemsDecided, TableExists, TestsExist, VerdictsExist};
ghost use Rattle.ready.specs.Rounds.{OrderIsFree};

pub fn table_exists_stands()
    ensures { TableExists }
{}

pub fn tests_exist_stands()
    ensures { TestsExist }
{}

pub fn items_decided_stands()
    ensures { ItemsDecided }
{}

pub fn answers_exist_stands()
    ensures { AnswersExist }
{}

pub fn verdicts_exist_stands()
    ensures { VerdictsExist }
{}

// Whatever the order in which making ready finds pairs, it finds the same.
pub fn order_is_free_stands()
    ensures { OrderIsFree }
{}
