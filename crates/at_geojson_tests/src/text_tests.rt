//! Features that are kept by their texts: names and values are compared where they stand in the text.

use crate::tests::{Row, compare_rows};
use std::test::Fail;

/// Texts that are asked for, of several tests, and values that are no strings.
#[test]
fn texts(rt: HostRuntime) -> Result<(), Fail> {
    let rows: [Row; 5] = [
        (
            "select where has \"kind\" = \"town\"",
            "{\"type\":\"FeatureCollection\",\"features\":[{\"type\":\"Feature\",\"properties\":{\"kind\":\"town\"},\"geometry\":null},{\"type\":\"Feature\",\"properties\":{\"kind\":\"lake\"},\"geometry\":null},{\"type\":\"Feature\",\"properties\":{\"a\":1,\"kind\":\"town\"},\"geometry\":null}]}",
            "40\n168\n",
        ),
        (
            "count where has \"kind\" = \"town\" and has \"a\" = \"b\"",
            "{\"type\":\"FeatureCollection\",\"features\":[{\"type\":\"Feature\",\"properties\":{\"kind\":\"town\",\"a\":\"b\"},\"geometry\":null},{\"type\":\"Feature\",\"properties\":{\"a\":\"b\",\"kind\":\"tow\"},\"geometry\":null},{\"type\":\"Feature\",\"properties\":{\"a\":\"b\"},\"geometry\":null},{\"type\":\"Feature\",\"properties\":{\"a\":\"b\",\"c\":{\"kind\":\"town\"},\"kind\":\"town\"},\"geometry\":null}]}",
            "2\n",
        ),
        (
            "count where has \"kind\" = \"town\" and has \"kind\" = \"lake\"",
            "{\"type\":\"FeatureCollection\",\"features\":[{\"type\":\"Feature\",\"properties\":{\"kind\":\"town\"},\"geometry\":null},{\"type\":\"Feature\",\"properties\":{\"kind\":\"lake\"},\"geometry\":null}]}",
            "0\n",
        ),
        (
            "count where has \"kind\" = \"town\" and has \"kind\" = \"town\"",
            "{\"type\":\"FeatureCollection\",\"features\":[{\"type\":\"Feature\",\"properties\":{\"kind\":\"town\"},\"geometry\":null},{\"type\":\"Feature\",\"properties\":{\"kind\":\"town\"},\"geometry\":null}]}",
            "2\n",
        ),
        (
            "select where has \"kind\" = \"town\"",
            "{\"type\":\"FeatureCollection\",\"features\":[{\"type\":\"Feature\",\"properties\":{\"kind\":1},\"geometry\":null},{\"type\":\"Feature\",\"properties\":{\"kind\":null},\"geometry\":null},{\"type\":\"Feature\",\"properties\":{\"kind\":[\"town\"]},\"geometry\":null},{\"type\":\"Feature\",\"properties\":{\"kind\":{\"kind\":\"town\"}},\"geometry\":null},{\"type\":\"Feature\",\"properties\":null,\"geometry\":null},{\"type\":\"Feature\",\"geometry\":null},{\"type\":\"Feature\",\"properties\":{\"kind\":\"town\"},\"geometry\":null}]}",
            "388\n",
        ),
    ];
    compare_rows(&rt, &rows)
}

/// Names and values with escapes, beyond ASCII, and long ones.
#[test]
fn spellings(rt: HostRuntime) -> Result<(), Fail> {
    let rows: [Row; 5] = [
        (
            "count where has \"kind\" = \"town\"",
            "{\"type\":\"FeatureCollection\",\"features\":[{\"type\":\"Feature\",\"properties\":{\"k\\u0069nd\":\"town\"},\"geometry\":null},{\"type\":\"Feature\",\"properties\":{\"kind\":\"\\u0074own\"},\"geometry\":null},{\"type\":\"Feature\",\"properties\":{\"kind\":\"town\\u0020\"},\"geometry\":null}]}",
            "2\n",
        ),
        (
            "count where has \"köln\" = \"straße\"",
            "{\"type\":\"FeatureCollection\",\"features\":[{\"type\":\"Feature\",\"properties\":{\"köln\":\"straße\"},\"geometry\":null},{\"type\":\"Feature\",\"properties\":{\"k\\u00f6ln\":\"stra\\u00dfe\"},\"geometry\":null},{\"type\":\"Feature\",\"properties\":{\"koln\":\"straße\"},\"geometry\":null},{\"type\":\"Feature\",\"properties\":{\"köln\":\"strasse\"},\"geometry\":null}]}",
            "2\n",
        ),
        (
            "count where has \"kind\" = \"😀\"",
            "{\"type\":\"FeatureCollection\",\"features\":[{\"type\":\"Feature\",\"properties\":{\"kind\":\"😀\"},\"geometry\":null},{\"type\":\"Feature\",\"properties\":{\"kind\":\"\\ud83d\\ude00\"},\"geometry\":null},{\"type\":\"Feature\",\"properties\":{\"kind\":\"\\ud83d\"},\"geometry\":null}]}",
            "2\n",
        ),
        (
            "count where has \"kind\" = \"a long text of more than sixteen\"",
            "{\"type\":\"FeatureCollection\",\"features\":[{\"type\":\"Feature\",\"properties\":{\"kind\":\"a long text of more than sixteen\"},\"geometry\":null},{\"type\":\"Feature\",\"properties\":{\"kind\":\"a long text of more than sixtee!\"},\"geometry\":null},{\"type\":\"Feature\",\"properties\":{\"kind\":\"a long text of more than sixteen \"},\"geometry\":null}]}",
            "1\n",
        ),
        (
            "count where has \"\" = \"\"",
            "{\"type\":\"FeatureCollection\",\"features\":[{\"type\":\"Feature\",\"properties\":{\"\":\"\"},\"geometry\":null},{\"type\":\"Feature\",\"properties\":{\"\":\"x\"},\"geometry\":null},{\"type\":\"Feature\",\"properties\":{\"x\":\"\"},\"geometry\":null}]}",
            "1\n",
        ),
    ];
    compare_rows(&rt, &rows)
}

/// Names that a kind of object asks for, and texts of the feature itself, which are none of its properties.
#[test]
fn names_of_kinds(rt: HostRuntime) -> Result<(), Fail> {
    let rows: [Row; 4] = [
        (
            "select where has \"type\" = \"road\"",
            "{\"type\":\"FeatureCollection\",\"features\":[{\"type\":\"Feature\",\"properties\":{\"type\":\"road\"},\"geometry\":null},{\"type\":\"Feature\",\"properties\":{\"type\":\"Point\"},\"geometry\":null},{\"type\":\"Feature\",\"properties\":{\"type\":\"rail\"},\"geometry\":null},{\"type\":\"Feature\",\"properties\":{\"kind\":\"town\"},\"geometry\":null}]}",
            "40\n",
        ),
        (
            "count where has \"type\" = \"Feature\"",
            "{\"type\":\"FeatureCollection\",\"features\":[{\"type\":\"Feature\",\"properties\":{\"type\":\"Feature\"},\"geometry\":null},{\"type\":\"Feature\",\"properties\":{\"kind\":\"town\"},\"geometry\":null}]}",
            "1\n",
        ),
        (
            "count where has \"geometry\" = \"town\"",
            "{\"type\":\"FeatureCollection\",\"features\":[{\"type\":\"Feature\",\"properties\":{\"geometry\":\"town\"},\"geometry\":null},{\"type\":\"Feature\",\"properties\":{\"coordinates\":\"town\"},\"geometry\":null}]}",
            "1\n",
        ),
        (
            "count where has \"id\" = \"a\"",
            "{\"type\":\"FeatureCollection\",\"features\":[{\"type\":\"Feature\",\"id\":\"a\",\"properties\":{\"kind\":\"town\"},\"geometry\":null},{\"type\":\"Feature\",\"id\":\"b\",\"properties\":{\"id\":\"a\"},\"geometry\":null}]}",
            "1\n",
        ),
    ];
    compare_rows(&rt, &rows)
}

/// Each verb, with the geometry before the properties and behind them, and a test that looks at shapes.
#[test]
fn verbs(rt: HostRuntime) -> Result<(), Fail> {
    let rows: [Row; 5] = [
        (
            "select where has \"kind\" = \"town\"",
            "{\"type\":\"FeatureCollection\",\"features\":[{\"geometry\":{\"type\":\"Point\",\"coordinates\":[1,2]},\"properties\":{\"kind\":\"town\"},\"type\":\"Feature\"},{\"geometry\":{\"type\":\"Point\",\"coordinates\":[1,2]},\"type\":\"Feature\",\"properties\":{\"kind\":\"lake\"}}]}",
            "40\n",
        ),
        (
            "extent where has \"kind\" = \"town\"",
            "{\"type\":\"FeatureCollection\",\"features\":[{\"type\":\"Feature\",\"properties\":{\"kind\":\"town\"},\"geometry\":{\"type\":\"Point\",\"coordinates\":[1,2]}},{\"type\":\"Feature\",\"properties\":{\"kind\":\"lake\"},\"geometry\":{\"type\":\"Point\",\"coordinates\":[30,40]}},{\"type\":\"Feature\",\"properties\":{\"kind\":\"town\"},\"geometry\":{\"type\":\"Point\",\"coordinates\":[5,-6]}}]}",
            "1.0000000 -6.0000000 5.0000000 2.0000000\n",
        ),
        (
            "hull where has \"kind\" = \"town\"",
            "{\"type\":\"FeatureCollection\",\"features\":[{\"type\":\"Feature\",\"properties\":{\"kind\":\"town\"},\"geometry\":{\"type\":\"Point\",\"coordinates\":[1,2]}},{\"type\":\"Feature\",\"properties\":{\"kind\":\"lake\"},\"geometry\":{\"type\":\"Point\",\"coordinates\":[30,40]}},{\"type\":\"Feature\",\"properties\":{\"kind\":\"town\"},\"geometry\":{\"type\":\"Point\",\"coordinates\":[5,-6]}}]}",
            "5.0000000 -6.0000000\n1.0000000 2.0000000\n",
        ),
        (
            "area where has \"kind\" = \"town\"",
            "{\"type\":\"FeatureCollection\",\"features\":[{\"type\":\"Feature\",\"properties\":{\"kind\":\"town\"},\"geometry\":{\"type\":\"Polygon\",\"coordinates\":[[[0,0],[2,0],[2,2],[0,2],[0,0]]]}},{\"type\":\"Feature\",\"properties\":{\"kind\":\"lake\"},\"geometry\":{\"type\":\"Polygon\",\"coordinates\":[[[0,0],[2,0],[2,2],[0,2],[0,0]]]}}]}",
            "800000000000000\n",
        ),
        (
            "select where in box(0 0,9 9) and has \"kind\" = \"town\"",
            "{\"type\":\"FeatureCollection\",\"features\":[{\"type\":\"Feature\",\"properties\":{\"kind\":\"town\"},\"geometry\":{\"type\":\"Point\",\"coordinates\":[1,2]}},{\"type\":\"Feature\",\"properties\":{\"kind\":\"town\"},\"geometry\":{\"type\":\"Point\",\"coordinates\":[30,40]}},{\"type\":\"Feature\",\"properties\":{\"kind\":\"lake\"},\"geometry\":{\"type\":\"Point\",\"coordinates\":[1,2]}}]}",
            "40\n",
        ),
    ];
    compare_rows(&rt, &rows)
}

/// Faults where the tests hold and where they do not.
#[test]
fn faults(rt: HostRuntime) -> Result<(), Fail> {
    let rows: [Row; 6] = [
        (
            "count where has \"kind\" = \"town\"",
            "{\"type\":\"FeatureCollection\",\"features\":[{\"type\":\"Feature\",\"properties\":{\"kind\":\"lake\",\"kind\":\"town\"},\"geometry\":null}]}",
            "Twin at 86",
        ),
        (
            "count where has \"kind\" = \"town\"",
            "{\"type\":\"FeatureCollection\",\"features\":[{\"type\":\"Feature\",\"properties\":{\"kind\":\"lake\",\"k\\u0069nd\":\"town\"},\"geometry\":null}]}",
            "Twin at 86",
        ),
        (
            "count where has \"kind\" = \"town\"",
            "{\"type\":\"FeatureCollection\",\"features\":[{\"type\":\"Feature\",\"properties\":{\"kind\":\"lake\",\"a\":{\"b\":1,\"b\":2}},\"geometry\":null}]}",
            "Twin at 97",
        ),
        (
            "count where has \"kind\" = \"town\"",
            "{\"type\":\"FeatureCollection\",\"features\":[{\"type\":\"Feature\",\"properties\":{\"kind\":\"lake\"},\"geometry\":{\"type\":\"LineString\",\"coordinates\":[[1,2]]}}]}",
            "Short at 133",
        ),
        (
            "count where has \"kind\" = \"town\"",
            "{\"type\":\"FeatureCollection\",\"features\":[{\"type\":\"Feature\",\"properties\":7,\"geometry\":null}]}",
            "Form at 71",
        ),
        (
            "count where has \"kind\" = \"town\"",
            "{\"type\":\"FeatureCollection\",\"features\":[{\"type\":\"Feature\",\"properties\":\"town\",\"geometry\":null}]}",
            "Form at 71",
        ),
    ];
    compare_rows(&rt, &rows)
}

/// A feature that is the whole text.
#[test]
fn alone(rt: HostRuntime) -> Result<(), Fail> {
    let rows: [Row; 2] = [
        (
            "count where has \"kind\" = \"town\"",
            "{\"type\":\"Feature\",\"properties\":{\"kind\":\"town\"},\"geometry\":null}",
            "1\n",
        ),
        (
            "select where has \"kind\" = \"town\"",
            "{\"type\":\"Feature\",\"properties\":{\"kind\":\"lake\"},\"geometry\":null}",
            "",
        ),
    ];
    compare_rows(&rt, &rows)
}
