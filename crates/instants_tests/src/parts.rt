//! Dates in one field or one column of a line: the first rows are drawn by `tools/sample_fields.py dates`.

use crate::runs::next_byte;

// Words parted by bars, a stream, and what is written for it.
static PARTS: [(&str, &str, &str); 22] = [
    (
        "locate|field|time|rfc3339",
        "{\"time\": \"2021-01-01T03:04:05Z up\", \"a\": \"a, 2021-01-02T03:04:05Z\"}\n",
        "2021-01-01T03:04:05.000000000Z\t1\t11-30\n",
    ),
    (
        "locate|field|ts|rfc3339",
        "{\"\": \"2021-01-01T03:04:05Z\", \"time\": \"x 2021-01-03T03:04:05Z\"}\n",
        "! none\n",
    ),
    (
        "locate|column|2|separator|,|rfc3339",
        "\"2021-01-01T03:04:05Z,b\",\"a, 2021-01-02T03:04:05Z\"\n",
        "2021-01-02T03:04:05.000000000Z\t1\t30-49\n",
    ),
    (
        "locate|field|time|rfc3339",
        "{\"ts\": \"a, 2021-01-03T03:04:05Z up\"}\n",
        "! none\n",
    ),
    (
        "locate|column|3|separator|,|rfc3339",
        "2021-01-01T03:04:05Z up,x 2021-01-02T03:04:05Z\n",
        "! none\n",
    ),
    (
        "locate|column|1|separator|;|rfc3339",
        "x 2021-01-01T03:04:05Z up;a, 2021-01-02T03:04:05Z up;a, 2021-01-03T03:04:05Z up\n",
        "2021-01-01T03:04:05.000000000Z\t1\t3-22\n",
    ),
    (
        "locate|field||rfc3339",
        "{\"\": \"a, 2021-01-01T03:04:05Z up\", \"a\": \"a, 2021-01-02T03:04:05Z,b\", \"time\": \"a, 2021-01-03T03:04:05Z up\"}\n",
        "2021-01-01T03:04:05.000000000Z\t1\t10-29\n",
    ),
    (
        "locate|field|ts|rfc3339",
        "{\"a\": \"2021-01-01T03:04:05Z,b\", \"ts\": \"2021-01-02T03:04:05Z up\"}\n",
        "2021-01-02T03:04:05.000000000Z\t1\t40-59\n",
    ),
    (
        "locate|column|1|separator|,|rfc3339",
        "\"x 2021-01-01T03:04:05Z,b\",x 2021-01-02T03:04:05Z up,\"a, 2021-01-03T03:04:05Z up\"\n",
        "2021-01-01T03:04:05.000000000Z\t1\t4-23\n",
    ),
    (
        "locate|column|2|separator|;|rfc3339",
        "x 2021-01-01T03:04:05Z;2021-01-02T03:04:05Z\n",
        "2021-01-02T03:04:05.000000000Z\t1\t24-43\n",
    ),
    (
        "locate|field|a|rfc3339",
        "{\"time\": \"a, 2021-01-03T03:04:05Z up\", \"a\": \"2021-01-02T03:04:05Z\"}\n",
        "2021-01-02T03:04:05.000000000Z\t1\t46-65\n",
    ),
    (
        "locate|field|t|rfc3339",
        "{\"t\":\"2021-01-02T03:04:05Z up\\n\"}\n",
        "! doubt\t1\t7-26\tescape\n",
    ),
    (
        "locate|field|t|rfc3339",
        "{\"t\":\"2021-01-02T03:04:05Z0123456789abcdef\\n\"}\n",
        "! doubt\t1\t7-26\tgoes on\n",
    ),
    (
        "locate|field|t|rfc3339",
        "{\"t\":\"2021-01-02T03:04:05Z 123456789abcdef\\n\"}\n",
        "2021-01-02T03:04:05.000000000Z\t1\t7-26\n",
    ),
    (
        "locate|field|t|rfc3339",
        "{\"t\":\"2021-01-02T03:04:05Z 123456789abcde\\n\"}\n",
        "! doubt\t1\t7-26\tescape\n",
    ),
    (
        "locate|field|t|rfc3339",
        "{\"t\":\"x\",\"t\":\"2021-01-02T03:04:05Z\"}\n",
        "! none\tfirst of several\n",
    ),
    (
        "locate|field|t|rfc3339",
        "{\"\\u0074\":\"2021-01-02T03:04:05Z\",\"t\":1}\n",
        "2021-01-02T03:04:05.000000000Z\t1\t12-31\tfirst of several\n",
    ),
    (
        "locate|field|t|strftime|%s",
        "{\"n\":1,\"t\":1609556645}\n",
        "2021-01-02T03:04:05.000000000Z\t1\t12-21\n",
    ),
    (
        "locate|column|2|separator|tab|rfc3339",
        "\"a\t2021-01-02T03:04:05Zx\tb\n",
        "! doubt\t1\t4-23\tgoes on\n",
    ),
    (
        "replace|column|2|rfc3339",
        "\"a\"\",b\",\"2021-01-02T04:04:05+01:00\",c\n",
        "\"a\"\",b\",\"2021-01-02T03:04:05.000000000Z\",c\n",
    ),
    (
        "carry|field|t|label|web|rfc3339",
        "{\"t\":\"2021-01-02T03:04:05Z\"}\n{\"u\":\"2021-01-03T03:04:05Z\"}\n",
        "2021-01-02T03:04:05.000000000Z\tweb\t{\"t\":\"2021-01-02T03:04:05Z\"}\n2021-01-02T03:04:05.000000000Z\tweb\t{\"u\":\"2021-01-03T03:04:05Z\"}\n",
    ),
    (
        "key|+00:00|+00:00|100|year|2020|column|2|strftime|%b %e %T",
        "a,Dec 31 23:59:59\nb,Jan  1 00:00:01\n",
        "2020-12-31T23:59:59.000000000Z\ta,Dec 31 23:59:59\n2021-01-01T00:00:01.000000000Z\tb,Jan  1 00:00:01\n",
    ),
];

#[test]
fn parts(rt: HostRuntime) {
    for row in &PARTS {
        let (words, stream, output) = *row;
        assert!(rt;
            next_byte(rt.alloc(), words, stream, output) == Some(0),
            "{words}: {stream}"
        );
    }
}
