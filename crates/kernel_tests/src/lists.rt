//! A large table, which shows that a removal makes no search.

ghost use Rattle.std.specs.Prelude.{◌≡◌, ◌<◌, ℕ, Some, None};
ghost use Rattle.queue_table.specs.Table.{lists};
ghost use Rattle.queue_table.specs.Lists.{place};

use queue_table::QueueTable;
use std::test::Fail;

// Puts each process into queue 0, in order.
fn fill(table: &mut QueueTable<60000, 2>)
    requires { (p : ℕ) → place (lists table.old) p ≡ None }
    ensures { (p : ℕ) → p < 60000 → place (lists table.new) p ≡ Some 0 }
{
    for p in 0..60000 {
        table.enqueue(p, 0);
    }
}

// Takes a process out of the middle and puts it last, many times.
fn churn(table: &mut QueueTable<60000, 2>)
    requires { (p : ℕ) → p < 60000 → place (lists table.old) p ≡ Some 0 }
    ensures { (p : ℕ) → p < 60000 → place (lists table.new) p ≡ Some 0 }
{
    for j in 0..6_000_000 {
        let p = 30000 + j % 30000;
        table.remove(p);
        table.enqueue(p, 0);
    }
}

#[test]
fn a_removal_makes_no_search(rt: HostRuntime) -> Result<(), Fail> {
    let Ok(mut table) = QueueTable::<60000, 2>::new(rt.alloc()) else {
        return Err(Fail::from("no memory"));
    };
    fill(&mut table);
    churn(&mut table);
    let mut at = table.first(0);
    for expected in 0..60000 {
        assert_eq!(rt; at, Some(expected));
        at = table.next_after(expected);
    }
    assert_eq!(rt; at, None);
    Ok(())
}
