//! Objects one behind another in an array.

use crate::tests::{Row, compare_rows};
use std::test::Fail;

/// Objects one behind another in an array, and what stands between them.
#[test]
fn runs(rt: HostRuntime) -> Result<(), Fail> {
    let rows: [Row; 8] = [
        (
            "select",
            "{\"type\":\"FeatureCollection\",\"features\":[{\"type\":\"Feature\",\"geometry\":null},{\"type\":\"Feature\",\"geometry\":null},{\"type\":\"Feature\",\"geometry\":null}]}",
            "40\n75\n110\n",
        ),
        (
            "count",
            "{\"type\":\"FeatureCollection\",\"features\":[{\"type\":\"Feature\",\"geometry\":null},{\"type\":\"Feature\",\"geometry\":null},null,{\"type\":\"Feature\",\"geometry\":null}]}",
            "Form at 110",
        ),
        (
            "count",
            "{\"type\":\"FeatureCollection\",\"features\":[[],{\"type\":\"Feature\",\"geometry\":null},{\"type\":\"Feature\",\"geometry\":null}]}",
            "Form at 40",
        ),
        (
            "count",
            "{\"type\":\"FeatureCollection\",\"features\":[{\"type\":\"Feature\",\"geometry\":null},{\"a\":1,\"a\":2},{\"type\":\"Feature\",\"geometry\":null}]}",
            "Twin at 82",
        ),
        (
            "extent",
            "{\"type\":\"GeometryCollection\",\"geometries\":[{\"type\":\"Point\",\"coordinates\":[1,2]},{\"type\":\"GeometryCollection\",\"geometries\":[{\"type\":\"Point\",\"coordinates\":[3,4]},{\"type\":\"Point\",\"coordinates\":[5,0]}]},{\"type\":\"Point\",\"coordinates\":[0,7]}]}",
            "0.0000000 0.0000000 5.0000000 7.0000000\n",
        ),
        (
            "count",
            "{\"type\":\"GeometryCollection\",\"geometries\":[{\"type\":\"Point\",\"coordinates\":[1,2]},{\"type\":\"Point\",\"coordinates\":[3]},{\"type\":\"Point\",\"coordinates\":[4,\"y\"]}]}",
            "Form at 110",
        ),
        (
            "select",
            "{\"type\":\"FeatureCollection\",\"features\":[ {\"type\":\"Feature\",\"geometry\":null} , {\"type\":\"Feature\",\"\\u0061\":1,\"geometry\":null},\n{\"type\": \"Feature\",\"geometry\":null},{\"a\":1,\"b\":2,\"c\":3,\"type\":\"Feature\",\"geometry\":null},{\"bbox\":[0,0],\"type\":\"Feature\",\"geometry\":null}]}",
            "41\n78\n125\n161\n214\n",
        ),
        (
            "extent",
            "{\"type\":\"FeatureCollection\",\"features\":[{\"type\":\"Feature\",\"geometry\":{\"type\":\"Point\",\"coordinates\":[1,2]}},{\"type\":\"Feature\",\"geometry\":{\"type\":\"Polygon\",\"coordinates\":[[[0,0],[4,0],[4,4],[0,0]]]}},{\"type\":\"Feature\",\"geometry\":{\"type\":\"LineString\",\"coordinates\":[[-1,5],[3,1]]}}]}",
            "-1.0000000 0.0000000 4.0000000 5.0000000\n",
        ),
    ];
    compare_rows(&rt, &rows)
}
