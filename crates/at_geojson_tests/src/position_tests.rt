//! Positions of more than two numbers, numbers with exponents, and names with one end.

use crate::tests::{Row, compare_rows};
use std::test::Fail;

/// Further numbers of a position are passed over, whatever their values (RFC 7946 section 3.1.1).
#[test]
fn further_numbers(rt: HostRuntime) -> Result<(), Fail> {
    let rows: [Row; 9] = [
        (
            "extent",
            "{\"type\":\"FeatureCollection\",\"features\":[{\"type\":\"Feature\",\"properties\":null,\"geometry\":{\"type\":\"Point\",\"coordinates\":[1,2,3]}},{\"type\":\"Feature\",\"properties\":null,\"geometry\":{\"type\":\"MultiPoint\",\"coordinates\":[[3,4,9e9],[-5,6,1e999,0,-0]]}}]}",
            "-5.0000000 2.0000000 3.0000000 6.0000000\n",
        ),
        (
            "extent",
            "{\"type\":\"FeatureCollection\",\"features\":[{\"type\":\"Feature\",\"properties\":null,\"geometry\":{\"type\":\"LineString\",\"coordinates\":[ [ 1 , 2 , 300 ] , [3,-4.5,0.123456789] ]}},{\"type\":\"Feature\",\"properties\":null,\"geometry\":{\"type\":\"MultiLineString\",\"coordinates\":[[[0,0],[2,2,400]],[[7,1,1,1],[3,9]]]}}]}",
            "0.0000000 -4.5000000 7.0000000 9.0000000\n",
        ),
        (
            "area",
            "{\"type\":\"FeatureCollection\",\"features\":[{\"type\":\"Feature\",\"properties\":null,\"geometry\":{\"type\":\"Polygon\",\"coordinates\":[[[0,0,7],[4,0,7],[4,4,8],[0,4,1],[0,0,2]]]}},{\"type\":\"Feature\",\"properties\":null,\"geometry\":{\"type\":\"MultiPolygon\",\"coordinates\":[[[[0,0,1],[10,0,1],[10,10],[0,10,1,1],[0,0,3]],[[5,5],[6,5,9],[6,6],[5,6],[5,5]]]]}}]}",
            "23000000000000000\n",
        ),
        (
            "count",
            "{\"type\":\"FeatureCollection\",\"features\":[{\"type\":\"Feature\",\"properties\":null,\"geometry\":{\"type\":\"Polygon\",\"coordinates\":[[[0,0,7],[4,0,7],[4,4,8],[0,0,2]]]}},{\"type\":\"Feature\",\"properties\":null,\"geometry\":{\"type\":\"LineString\",\"coordinates\":[[0,0,7],[4,0,7]]}},{\"type\":\"Feature\",\"properties\":null,\"geometry\":{\"type\":\"Point\",\"coordinates\":[0,0,7,8,9]}}]}",
            "3\n",
        ),
        (
            "join",
            "{\"type\":\"LineString\",\"coordinates\":[[1,2],[3,4,5],[6,7,8,9],[0,-1,2,3,4]]}",
            "0: | 1,2 3,4 6,7 0,-1\n",
        ),
        (
            "join",
            "{\"type\":\"MultiLineString\",\"coordinates\":[[[1,2,3],[4,5,6]],[[7,8],[9,9,9,9]]]}",
            "0: | 1,2 4,5 | 7,8 9,9\n",
        ),
        (
            "join",
            "{\"type\":\"MultiPolygon\",\"coordinates\":[[[[0,0,1],[4,0,1],[4,4,1],[0,0,1]],[[1,1],[2,1,0],[2,2],[1,1]]]]}",
            "0: # 0,0 4,0 4,4 0,0 # 1,1 2,1 2,2 1,1\n",
        ),
        (
            "join",
            "{\"type\":\"FeatureCollection\",\"features\":[{\"type\":\"Feature\",\"properties\":null,\"geometry\":{\"type\":\"MultiPoint\",\"coordinates\":[[1e0,20E-1,3e3],[0.5e1,-1E+1]]}},{\"type\":\"Feature\",\"properties\":null,\"geometry\":{\"type\":\"Point\",\"coordinates\":[30.0e-1,4]}}]}",
            "40: 1,2 5,-10\n156: 3,4\n",
        ),
        (
            "select where in box(-10 -10,10 10)",
            "{\"type\":\"FeatureCollection\",\"features\":[{\"type\":\"Feature\",\"properties\":null,\"geometry\":null},{\"type\":\"Feature\",\"properties\":null,\"geometry\":{\"type\":\"Point\",\"coordinates\":[1,2,30]}},{\"type\":\"Feature\"},{\"type\":\"Feature\",\"properties\":null,\"geometry\":{\"type\":\"Point\",\"coordinates\":[1,11,3]}},{\"type\":\"Feature\",\"properties\":null,\"geometry\":{\"type\":\"LineString\",\"coordinates\":[[1,2,30],[-3,4,50]]}}]}",
            "93\n288\n",
        ),
    ];
    compare_rows(&rt, &rows)
}

/// Faults in positions of more than two numbers: a further number that is none, and x or y out of range.
#[test]
fn faults_in_positions(rt: HostRuntime) -> Result<(), Fail> {
    let rows: [Row; 15] = [
        (
            "count",
            "{\"type\":\"Point\",\"coordinates\":[1,2,\"a\"]}",
            "Form at 30",
        ),
        (
            "count",
            "{\"type\":\"Point\",\"coordinates\":[1,2,null]}",
            "Form at 30",
        ),
        (
            "count",
            "{\"type\":\"Point\",\"coordinates\":[1,2,[3]]}",
            "Form at 30",
        ),
        (
            "count",
            "{\"type\":\"Point\",\"coordinates\":[1,2,{}]}",
            "Form at 30",
        ),
        (
            "count",
            "{\"type\":\"Point\",\"coordinates\":[1]}",
            "Form at 30",
        ),
        (
            "extent",
            "{\"type\":\"FeatureCollection\",\"features\":[{\"type\":\"Feature\",\"properties\":null,\"geometry\":{\"type\":\"LineString\",\"coordinates\":[[1,2,3],[4,5,\"a\"]]}}]}",
            "Form at 122",
        ),
        (
            "extent",
            "{\"type\":\"FeatureCollection\",\"features\":[{\"type\":\"Feature\",\"properties\":null,\"geometry\":{\"type\":\"LineString\",\"coordinates\":[[1,2,3],[4,5,6],[7]]}}]}",
            "Form at 122",
        ),
        (
            "extent",
            "{\"type\":\"FeatureCollection\",\"features\":[{\"type\":\"Feature\",\"properties\":null,\"geometry\":{\"type\":\"LineString\",\"coordinates\":[[1,2,3],[4,5,6],7]}}]}",
            "Form at 122",
        ),
        (
            "count",
            "{\"type\":\"Point\",\"coordinates\":[1,2,]}",
            "Syntax at 35",
        ),
        (
            "count",
            "{\"type\":\"Point\",\"coordinates\":[1,2,03]}",
            "Syntax at 36",
        ),
        (
            "count",
            "{\"type\":\"Point\",\"coordinates\":[1,2,3",
            "Ended",
        ),
        (
            "extent",
            "{\"type\":\"FeatureCollection\",\"features\":[{\"type\":\"Feature\",\"properties\":null,\"geometry\":{\"type\":\"LineString\",\"coordinates\":[[0,0,1],[1,40000000,1]]}}]}",
            "Range at 134",
        ),
        (
            "count",
            "{\"type\":\"FeatureCollection\",\"features\":[{\"type\":\"Feature\",\"properties\":null,\"geometry\":{\"type\":\"Point\",\"coordinates\":[4e7,0,1]}}]}",
            "Range at 118",
        ),
        (
            "count",
            "{\"type\":\"FeatureCollection\",\"features\":[{\"type\":\"Feature\",\"properties\":null,\"geometry\":{\"type\":\"LineString\",\"coordinates\":[[0,0,1]]}}]}",
            "Short at 122",
        ),
        (
            "area",
            "{\"type\":\"FeatureCollection\",\"features\":[{\"type\":\"Feature\",\"properties\":null,\"geometry\":{\"type\":\"Polygon\",\"coordinates\":[[[0,0,1],[1,0,1],[1,1,1],[0,1,1]]]}}]}",
            "Ring at 120",
        ),
    ];
    compare_rows(&rt, &rows)
}

/// More names than are kept in place, with one end, and twins among them.
#[test]
fn names_with_one_end(rt: HostRuntime) -> Result<(), Fail> {
    let rows: [Row; 4] = [
        (
            "count",
            "{\"type\":\"Feature\",\"properties\":{\"a_tail\":0,\"b_tail\":0,\"c_tail\":0,\"d_tail\":0,\"e_tail\":0,\"f_tail\":0,\"g_tail\":0,\"h_tail\":0,\"i_tail\":0,\"j_tail\":0,\"k_tail\":0,\"l_tail\":0},\"geometry\":null}",
            "1\n",
        ),
        (
            "count",
            "{\"type\":\"Feature\",\"properties\":{\"a_tail\":0,\"b_tail\":0,\"c_tail\":0,\"d_tail\":0,\"e_tail\":0,\"f_tail\":0,\"g_tail\":0,\"h_tail\":0,\"i_tail\":0,\"j_tail\":0,\"k_tail\":0,\"l_tail\":0,\"a_tail\":1},\"geometry\":null}",
            "Twin at 164",
        ),
        (
            "count",
            "{\"type\":\"Feature\",\"properties\":{\"a_tail\":0,\"b_tail\":0,\"c_tail\":0,\"d_tail\":0,\"e_tail\":0,\"f_tail\":0,\"g_tail\":0,\"h_tail\":0,\"i_tail\":0,\"j_tail\":0,\"k_tail\":0,\"l_tail\":0,\"k_tail\":1,\"b_tail\":1},\"geometry\":null}",
            "Twin at 164",
        ),
        (
            "count",
            "{\"type\":\"Feature\",\"properties\":{\"a_tail\":0,\"b_tail\":0,\"c_tail\":0,\"d_tail\":0,\"e_tail\":0,\"f_tail\":0,\"g_tail\":0,\"h_tail\":0,\"i_tail\":0,\"j_tail\":0,\"k_tail\":0,\"l_tail\":0,\"k\\u005ftail\":1},\"geometry\":null}",
            "Twin at 164",
        ),
    ];
    compare_rows(&rt, &rows)
}
