//! Documents that tests begin with, and changes of them.

use net_reader::{ReadRefusal, read_net};
use rail_net::{ListKind, NetFault, Spot};
use std::alloc::Global;
use std::test::Fail;

/// A network with every kind of node, two sections, a border on a track, one at a joint, and a station.
pub const YARD: &str =
    r#"{"nodes":[{"name":"A","kind":"end"},{"name":"J","kind":"joint"},{"name":"P","kind":"point","tip":"t2"},{"name":"K","kind":"joint"},{"name":"B","kind":"end"},{"name":"X","kind":"crossing","pairs":[["t4","t5"],["t6","t7"]]},{"name":"C","kind":"end"},{"name":"D","kind":"end"},{"name":"E","kind":"end"}],"tracks":[{"name":"t1","from":"A","to":"J","length_m":1000},{"name":"t2","from":"J","to":"P","length_m":900,"limit_kmh":80},{"name":"t3","from":"P","to":"K","length_m":800},{"name":"t4","from":"P","to":"X","length_m":700,"virtual":false},{"name":"t5","from":"X","to":"C","length_m":600},{"name":"t6","from":"D","to":"X","length_m":550},{"name":"t7","from":"X","to":"E","length_m":400},{"name":"t8","from":"K","to":"B","length_m":300}],"sections":[{"name":"s1","tracks":["t1"]},{"name":"s2","tracks":["t2","t3","t4","t5","t6","t7","t8"]}],"borders":[{"track":"t1","at_m":500},{"joint":"K"}],"stations":[{"name":"S","tracks":["t3"]}]}"#;

/// A joint where one track begins and ends.
pub const LOOP: &str =
    r#"{"nodes":[{"name":"A","kind":"joint"}],"tracks":[{"name":"t1","from":"A","to":"A","length_m":1000}],"sections":[]}"#;

/// The text with the first place of `old` changed; an error where there is none.
pub fn changed(alloc: Global, text: &str, old: &str, new: &str) -> Result<String, Fail> {
    let (before, after) = text.split_once(old).ok_or("nothing to change")?;
    Ok(format!(in alloc; "{before}{new}{after}")?)
}

/// How the bytes are answered.
pub fn answer(alloc: Global, bytes: &[u8]) -> Result<(), ReadRefusal> {
    match read_net(alloc, bytes) {
        Ok(_net) => Ok(()),
        Err(refusal) => Err(refusal),
    }
}

/// The answer that tells this broken rule, and the item of the list that breaks it.
pub fn refused(kind: NetFault, list: ListKind, item: u32) -> Result<(), ReadRefusal> {
    Err(ReadRefusal::Net {
        kind,
        spot: Spot { list, item },
    })
}
