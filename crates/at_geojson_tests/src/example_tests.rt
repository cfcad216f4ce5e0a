//! What the page of `at_geojson` shows.

use at_fixed::Coords;
use at_geojson::{GeoAlgebra, root_part};
use at_nest::{finish, run_block};
use at_query::{Part, read_query};
use std::test::Fail;

/// What the page of `at_geojson` shows.
#[test]
fn the_example_of_the_crate(rt: HostRuntime) -> Result<(), Fail> {
    let alloc = rt.alloc();
    let text: &[u8] = br#"{"type":"Point","coordinates":[1,2]}"#;
    let query = read_query(alloc, b"count", 7, Coords::Exact)?;
    let algebra = GeoAlgebra::new(query, 7, Coords::Exact);
    let whole = run_block(alloc, &algebra, text, 0);
    let atom = finish(alloc, &algebra, text, whole)?;
    let part = root_part(alloc, &algebra, atom)?;
    assert!(rt; matches!(part, Part::Count(1)));
    Ok(())
}
