//! Features of which no shape is made: their extents and their areas are told as positions are read, and where they are
//! counted positions are looked at for faults alone.

use crate::tests::{Row, compare_rows};
use std::test::Fail;

/// Each kind of coordinates, holes, rings that go either way, and faults, wherever the text is cut.
#[test]
fn measures(rt: HostRuntime) -> Result<(), Fail> {
    let rows: [Row; 13] = [
        (
            "extent",
            "{\"type\":\"FeatureCollection\",\"features\":[{\"type\":\"Feature\",\"properties\":null,\"geometry\":{\"type\":\"Point\",\"coordinates\":[1,2]}},{\"type\":\"Feature\",\"properties\":null,\"geometry\":{\"type\":\"MultiPoint\",\"coordinates\":[[3,4],[-5,6]]}}]}",
            "-5.0000000 2.0000000 3.0000000 6.0000000\n",
        ),
        (
            "extent",
            "{\"type\":\"FeatureCollection\",\"features\":[{\"type\":\"Feature\",\"properties\":null,\"geometry\":{\"type\":\"LineString\",\"coordinates\":[[1,2],[3,-4.5]]}},{\"type\":\"Feature\",\"properties\":null,\"geometry\":{\"type\":\"MultiLineString\",\"coordinates\":[[[0,0],[2,2]],[[7,1],[3,9]]]}}]}",
            "0.0000000 -4.5000000 7.0000000 9.0000000\n",
        ),
        (
            "area",
            "{\"type\":\"FeatureCollection\",\"features\":[{\"type\":\"Feature\",\"properties\":null,\"geometry\":{\"type\":\"Polygon\",\"coordinates\":[[[0,0],[10,0],[10,10],[0,10],[0,0]],[[1,1],[1,3],[3,3],[3,1],[1,1]],[[5,5],[6,5],[6,6],[5,6],[5,5]]]}}]}",
            "19000000000000000\n",
        ),
        (
            "area",
            "{\"type\":\"FeatureCollection\",\"features\":[{\"type\":\"Feature\",\"properties\":null,\"geometry\":{\"type\":\"MultiPolygon\",\"coordinates\":[[[[0,0],[10,0],[10,10],[0,10],[0,0]],[[5,5],[6,5],[6,6],[5,6],[5,5]]],[[[20,0],[20,4],[24,4],[24,0],[20,0]],[[21,1],[22,1],[22,2],[21,2],[21,1]]]]}},{\"type\":\"Feature\",\"properties\":null,\"geometry\":{\"type\":\"Polygon\",\"coordinates\":[[[1,1],[1,3],[3,3],[3,1],[1,1]]]}}]}",
            "23600000000000000\n",
        ),
        (
            "extent",
            "{\"type\":\"FeatureCollection\",\"features\":[{\"type\":\"Feature\",\"properties\":null,\"geometry\":{\"type\":\"MultiPolygon\",\"coordinates\":[[[[0,0],[10,0],[10,10],[0,10],[0,0]]],[[[1,1],[1,3],[3,3],[3,1],[1,1]],[[30,-3],[31,-3],[31,-2],[30,-3]]]]}},{\"type\":\"Feature\",\"properties\":null,\"geometry\":{\"type\":\"Polygon\",\"coordinates\":[[[5,5],[6,5],[6,6],[5,6],[5,5]],[[-7,0],[-6,0],[-6,1],[-7,0]]]}}]}",
            "-7.0000000 -3.0000000 31.0000000 10.0000000\n",
        ),
        (
            "area",
            "{\"type\":\"FeatureCollection\",\"features\":[{\"type\":\"Feature\",\"properties\":null,\"geometry\":{\"type\":\"Point\",\"coordinates\":[1,2]}},{\"type\":\"Feature\",\"properties\":null,\"geometry\":{\"type\":\"MultiPoint\",\"coordinates\":[[0,0],[4,0],[4,4],[0,0]]}},{\"type\":\"Feature\",\"properties\":null,\"geometry\":{\"type\":\"LineString\",\"coordinates\":[[0,0],[4,0],[4,4],[0,0]]}},{\"type\":\"Feature\",\"properties\":null,\"geometry\":{\"type\":\"MultiLineString\",\"coordinates\":[[[0,0],[4,0],[4,4],[0,0]]]}}]}",
            "0\n",
        ),
        (
            "count",
            "{\"type\":\"FeatureCollection\",\"features\":[{\"type\":\"Feature\",\"properties\":null,\"geometry\":{\"type\":\"Point\",\"coordinates\":[1e0,2.50]}},{\"type\":\"Feature\",\"properties\":null,\"geometry\":{\"type\":\"MultiPolygon\",\"coordinates\":[[[[0,0],[10,0],[10,10],[0,10],[0,0]],[[1,1],[1,3],[3,3],[3,1],[1,1]]]]}},{\"type\":\"Feature\",\"properties\":null,\"geometry\":{\"type\":\"MultiPoint\",\"coordinates\":[[1,2],[3,4]]}},{\"type\":\"Feature\",\"properties\":null,\"geometry\":{\"type\":\"MultiLineString\",\"coordinates\":[[[0,0],[2,2]]]}}]}",
            "4\n",
        ),
        (
            "count",
            "{\"type\":\"FeatureCollection\",\"features\":[{\"type\":\"Feature\",\"properties\":null,\"geometry\":{\"type\":\"LineString\",\"coordinates\":[[1,2]]}},{\"type\":\"Feature\",\"properties\":null,\"geometry\":{\"type\":\"Point\",\"coordinates\":[1,2]}}]}",
            "Short at 122",
        ),
        (
            "extent",
            "{\"type\":\"FeatureCollection\",\"features\":[{\"type\":\"Feature\",\"properties\":null,\"geometry\":{\"type\":\"MultiLineString\",\"coordinates\":[[[1,2],[3,4]],[[5,6]]]}}]}",
            "Short at 142",
        ),
        (
            "area",
            "{\"type\":\"FeatureCollection\",\"features\":[{\"type\":\"Feature\",\"properties\":null,\"geometry\":{\"type\":\"Polygon\",\"coordinates\":[[[0,0],[10,0],[10,10],[0,10],[0,0]],[[1,1],[2,1],[2,2],[1,2]]]}}]}",
            "Ring at 156",
        ),
        (
            "extent",
            "{\"type\":\"FeatureCollection\",\"features\":[{\"type\":\"Feature\",\"properties\":null,\"geometry\":{\"type\":\"MultiPolygon\",\"coordinates\":[[[[0,0],[10,0],[10,10],[0,10],[0,0]]],[[[5,5],[6,5],[6,6],[5,6],[5,5]],[[1,1],[2,1],[1,1]]]]}}]}",
            "Ring at 196",
        ),
        (
            "count",
            "{\"type\":\"FeatureCollection\",\"features\":[{\"type\":\"Feature\",\"properties\":null,\"geometry\":{\"type\":\"MultiPolygon\",\"coordinates\":[[[[0,0],[10,0],[10,10],[0,10],[0,0]]],[[[0,0],[4,0],[4,4],[0,4],[0,1]]]]}}]}",
            "Ring at 164",
        ),
        (
            "extent",
            "{\"type\":\"FeatureCollection\",\"features\":[{\"type\":\"Feature\"},{\"type\":\"Feature\",\"properties\":null,\"geometry\":{\"type\":\"Point\",\"coordinates\":[1,2]}}]}",
            "1.0000000 2.0000000 1.0000000 2.0000000\n",
        ),
    ];
    compare_rows(&rt, &rows)
}
