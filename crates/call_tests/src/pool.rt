//! Three rows, taken, written, given back and taken again.
ghost use Rattle.std.specs.Prelude.{◌≡◌, ◌+◌, ◌<◌, ◌++◌, ◌∷◌, [], length, nat_eq};
ghost use Rattle.std.specs.List.{IsDistinct};
ghost use Rattle.tsc_pool.specs.Pool.{AreThoseOut, KeepsWords};

use tsc_pool::{Pool, RowList};

/// Takes one row more into the list of the rows that are out.
#[tactic(auto, using(tsc_pool::proofs::Holding::those_out_taken, tsc_pool::proofs::Holding::once_taken))]
fn take_into(pool: &mut Pool, rows: &mut RowList)
    requires free { 0 < length pool.old.free }
    requires room { length rows.old.rows < rows.old.room }
    requires those_out { AreThoseOut pool.old rows.old.rows }
    requires once { IsDistinct nat_eq rows.old.rows }
    ensures free { length pool.new.free + 1 ≡ length pool.old.free }
    ensures words { KeepsWords pool.old pool.new }
    ensures room { rows.new.room ≡ rows.old.room }
    ensures len { length rows.new.rows ≡ length rows.old.rows + 1 }
    ensures those_out { AreThoseOut pool.new rows.new.rows }
    ensures once { IsDistinct nat_eq rows.new.rows }
{
    let row = pool.take().unwrap();
    rows.push(row);
}

/// Gives the last row of the list back, and answers its index.
#[tactic(auto, using(tsc_pool::proofs::Holding::those_out_given))]
fn give_last(pool: &mut Pool, rows: &mut RowList) -> usize
    requires held { 0 < length rows.old.rows }
    requires those_out { AreThoseOut pool.old rows.old.rows }
    requires once { IsDistinct nat_eq rows.old.rows }
    ensures free { length pool.new.free ≡ length pool.old.free + 1 }
    ensures words { KeepsWords pool.old pool.new }
    ensures room { rows.new.room ≡ rows.old.room }
    ensures rows { rows.old.rows ≡ rows.new.rows ++ result ∷ [] }
    ensures len { length rows.new.rows + 1 ≡ length rows.old.rows }
    ensures those_out { AreThoseOut pool.new rows.new.rows }
    ensures once { IsDistinct nat_eq rows.new.rows }
{
    let row = rows.pop().unwrap();
    let index = row.index();
    pool.give(row);
    index
}

/// Of three rows each has an index of its own, and a fourth isn't there.
#[test]
#[tactic(auto, using(tsc_pool::proofs::Holding::once_none))]
fn three_rows(rt: HostRuntime) {
    let mut pool = Pool::new(rt.alloc(), 3, 16).expect(&rt, "memory");
    let mut rows = RowList::new(rt.alloc(), 3).expect(&rt, "memory");
    take_into(&mut pool, &mut rows);
    take_into(&mut pool, &mut rows);
    take_into(&mut pool, &mut rows);
    assert_eq!(rt; rows.len(), 3);
    assert_eq!(rt; pool.free(), 0);
    assert_ne!(rt; rows.get(0).index(), rows.get(1).index());
    assert_ne!(rt; rows.get(0).index(), rows.get(2).index());
    assert_ne!(rt; rows.get(1).index(), rows.get(2).index());
    if let Some(fourth) = pool.take() {
        pool.give(fourth);
        panic!(&rt; "a fourth row");
    }
    pool.close(rows);
}

/// A row that was given back is taken again, and the other two hold what was written to them.
#[test]
#[tactic(auto, using(tsc_pool::proofs::Holding::once_none, tsc_pool::proofs::Holding::out_where_held))]
fn taken_again(rt: HostRuntime) {
    let mut pool = Pool::new(rt.alloc(), 3, 16).expect(&rt, "memory");
    let mut rows = RowList::new(rt.alloc(), 3).expect(&rt, "memory");
    take_into(&mut pool, &mut rows);
    take_into(&mut pool, &mut rows);
    take_into(&mut pool, &mut rows);
    pool.words_mut(rows.get(0))[15] = 1;
    pool.words_mut(rows.get(1))[0] = 2;
    let index = give_last(&mut pool, &mut rows);
    take_into(&mut pool, &mut rows);
    assert_eq!(rt; rows.get(2).index(), index);
    assert_eq!(rt; pool.words(rows.get(0))[15], 1);
    assert_eq!(rt; pool.words(rows.get(1))[0], 2);
    pool.close(rows);
}

/// A list without room takes no memory, and ends a pool of which no row is out.
#[test]
fn no_rows(rt: HostRuntime) {
    let pool = Pool::new(rt.alloc(), 0, 16).expect(&rt, "memory");
    let rows = RowList::new(rt.alloc(), 0).unwrap();
    rows.destroy_empty();
    pool.close(RowList::new(rt.alloc(), 0).unwrap());
}
