// The theorems on candidates and stores, each as the contract of a function. Assumes nothing.
ghost use Rattle.store.specs.Order.{NoneBeforeItself, OrderCarriesOver, UnorderedAreEqual, EarlierCostsNoMore};
ghost use Rattle.store.specs.Promises.{PutIsAccounted, TakeIsLeastAndAccounted, TakeIsAbsentExactlyWhenEmpty};

pub fn none_before_itself()
    ensures { NoneBeforeItself }
{}

pub fn order_carries_over()
    ensures { OrderCarriesOver }
{}

pub fn unordered_are_equal()
    ensures { UnorderedAreEqual }
{}

pub fn earlier_costs_no_more()
    ensures { EarlierCostsNoMore }
{}

pub fn put_is_accounted()
    ensures { PutIsAccounted }
{}

pub fn take_is_least_and_accounted()
    ensures { TakeIsLeastAndAccounted }
{}

pub fn take_is_absent_exactly_when_empty()
    ensures { TakeIsAbsentExactlyWhenEmpty }
{}
