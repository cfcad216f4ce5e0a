//! Features with which a text begins.

ghost use Rattle.std.specs.Prelude.{◌<◌, length};

use crate::tests::{Row, fault_text, part_text, read};
use at_fixed::Coords;
use at_geojson::{FeatureFront, GeoAlgebra, feature_front};
use std::alloc::Global;
use std::process::Abort;
use std::test::Fail;

/// How many bytes of a text its first feature takes, and its answer as a whole text or its first fault. The text's first
/// byte has the offset 100.
fn front_text(alloc: Global, line: &[u8], text: &[u8]) -> Result<String, Fail>
    requires line { length line.now < 100 }
    requires text { length text.now < 1000 }
{
    let algebra = GeoAlgebra::new(read(alloc, line)?, 7, Coords::Round);
    let Some(FeatureFront { len, part }) = feature_front(alloc, &algebra, text, 100)? else {
        return Ok(String::from_str(alloc, "none")?);
    };
    let told = match part {
        Ok(part) => part_text(alloc, part)?,
        Err(fault) => fault_text(alloc, fault)?,
    };
    let told = told.as_str();
    Ok(format!(in alloc; "{len}: {told}")?)
}

fn compare_front<R: Abort + AllocGlobal>(rt: &R, row: Row) -> Result<(), Fail> {
    assert!(rt; row.0.len() < 100);
    assert!(rt; row.1.len() < 1000);
    let found = front_text(rt.alloc(), row.0.as_bytes(), row.1.as_bytes())?;
    assert_eq!(rt; found.as_str(), row.2);
    Ok(())
}

/// Features, whatever follows; one with a fault; and texts that begin with none, or with one that is cut off.
#[test]
fn fronts(rt: HostRuntime) -> Result<(), Fail> {
    let rows: [Row; 7] = [
        (
            "count",
            "{\"type\":\"Feature\",\"geometry\":null,\"properties\":null}\n{",
            "52: 1\n",
        ),
        (
            "select where has \"kind\" = \"town\"",
            "{\"type\":\"Feature\",\"properties\":{\"kind\":\"town\"},\"geometry\":null} ",
            "63: 100\n",
        ),
        (
            "count where has \"kind\" = \"town\"",
            "{\"type\":\"Feature\",\"properties\":{\"kind\":\"lake\"},\"geometry\":null}",
            "63: 0\n",
        ),
        (
            "count",
            "{\"type\":\"Feature\",\"geometry\":{\"type\":\"LineString\",\"coordinates\":[[1,2]]},\"properties\":null},",
            "91: Short at 164",
        ),
        (
            "extent",
            "{\"type\":\"Point\",\"coordinates\":[1,2]}",
            "none",
        ),
        (
            "count",
            " {\"type\":\"Feature\",\"geometry\":null,\"properties\":null}",
            "none",
        ),
        (
            "count",
            "{\"type\":\"Feature\",\"geometry\":null,\"properties\":nul",
            "none",
        ),
    ];
    for row in rows {
        compare_front(&rt, row)?;
    }
    Ok(())
}
