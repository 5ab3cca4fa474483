//! What a store over files, or in memory, asks of its connection.
//!
//! A function over one kind of database has to prove again, at each call that takes any kind, everything about its own
//! kind. That is expensive. So everything that it asks is in one call here, and these functions take any kind.
ghost use Rattle.std.specs.Prelude.{◌≡◌, false, true, IsTrue, IfOk, IfErr, OnErr};
ghost use Rattle.sqlite.specs.Held.{state};
ghost use Rattle.sqlite.specs.State.{IsLive};
ghost use Rattle.part_store.specs.Calls.{Always, MayCommit};
ghost use Rattle.part_store.specs.Looking.{are_tables};
ghost use Rattle.part_store.specs.Opening.{HasOtherTables, IsBare, IsEmptied, MakesEmpty};
ghost use Rattle.part_store.specs.declared.looking.Unopened.TheVariants.{OtherTables};

use crate::looking::Unopened;
use crate::store::{PartStore, ready_tables};
use crate::within::know_connection;
use sqlite::{Alter, Connection};

/// The store on a connection: its tables are made if there are none and `makes` is true, otherwise it is taken as it
/// is. A connection that can't become a store is dropped.
pub(crate) fn store_on<S: Alter + Drop>(
    conn: Connection<S>,
    makes: bool,
) -> Result<PartStore<S>, Unopened>
    ensures made { makes ≡ true → IfOk result
        (λ s. Always S.Store conn s (λ old new. IsBare old → IsEmptied new)) }
    ensures kept { makes ≡ true → IfOk result
        (λ s. (IsBare (state S.Store conn) → ⊥) → s ≡ conn) }
    ensures survives { makes ≡ true → IfOk result (λ s. MayCommit S.Store conn s MakesEmpty) }
    ensures same { makes ≡ false → IfOk result (λ s. s ≡ conn) }
    ensures tables { makes ≡ false → IfOk result
        (λ s. are_tables (state S.Store s).now.schema.tables ≡ true) }
    ensures settled { IfOk result (λ s. (state S.Store s).in_transaction ≡ false) }
    ensures others { makes ≡ false → IfErr result (λ e. e ≡ OtherTables) }
    ensures apart { makes ≡ false → OnErr result ((state S.Store conn).in_transaction ≡ false
        → HasOtherTables (state S.Store conn)) }
{
    if makes {
        made_store(conn)
    } else {
        found_store(conn)
    }
}

/// The store on a connection, whose tables are made if there are none.
fn made_store<S: Alter + Drop>(conn: Connection<S>) -> Result<PartStore<S>, Unopened>
    ensures made { IfOk result
        (λ s. Always S.Store conn s (λ old new. IsBare old → IsEmptied new)) }
    ensures same { IfOk result (λ s. (IsBare (state S.Store conn) → ⊥) → s ≡ conn) }
    ensures settled { IfOk result (λ s. (state S.Store s).in_transaction ≡ false) }
    ensures survives { IfOk result (λ s. MayCommit S.Store conn s MakesEmpty) }
{
    let mut conn = conn;
    ready_tables(&mut conn)?;
    Ok(PartStore { conn })
}

/// The store on a connection, as it is (`adopt_as_is`).
fn found_store<S: Alter + Drop>(conn: Connection<S>) -> Result<PartStore<S>, Unopened>
    ensures same { IfOk result (λ s. s ≡ conn) }
    ensures tables { IfOk result (λ s. are_tables (state S.Store s).now.schema.tables ≡ true) }
    ensures settled { IfOk result (λ s. (state S.Store s).in_transaction ≡ false) }
    ensures others { IfErr result (λ e. e ≡ OtherTables) }
    ensures apart { OnErr result ((state S.Store conn).in_transaction ≡ false
        → HasOtherTables (state S.Store conn)) }
{
    match PartStore::adopt_as_is(conn) {
        Ok(store) => Ok(store),
        Err(_others) => Err(Unopened::OtherTables),
    }
}

/// A store's connection, with what holds for every connection that is in no transaction.
pub(crate) fn known_connection<S: Alter>(store: PartStore<S>) -> Connection<S>
    ensures same { result ≡ store }
    ensures settled { IsTrue (state S.Store store).is_open
        → (state S.Store store).now ≡ (state S.Store store).committed }
    ensures live { IsLive (state S.Store store) }
{
    let conn = store.release();
    know_connection(&conn);
    conn
}
