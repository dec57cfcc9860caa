//! Dates inside lines that can be trusted, where they are, and what takes their place.

use crate::runs::next_byte;
use std::alloc::Global;

// Words parted by bars, a line, and its key, what is said of its date, or the line with its date in place, below a heading.
const ROWS: &str = "\
# An offset that the line says, and a clock that goes on.
key|+00:00|+00:00|100|strftime|%F %T => 2024-05-01 10:00:00+02:00 up => ! doubt
key|+00:00|+00:00|100|strftime|%F %T => 2024-05-01 10:00:00 -0330 up => ! doubt
key|+00:00|+00:00|100|strftime|%F %T => 2024-05-01 10:00:00+02 up => ! doubt
key|+00:00|+00:00|100|strftime|%F %T => 2024-05-01 10:00:00,250 +0200 up => ! doubt
key|+00:00|+00:00|100|strftime|%F %T => 2024-05-01 10:00:00 +0000 up => 2024-05-01T10:00:00.000000000Z
key|+00:00|+05:00|100|strftime|%F %T => 2024-05-01 10:00:00 UTC up => ! doubt
key|+00:00|+00:00|100|strftime|%F %T => 2024-05-01 10:00:00 UTC up => 2024-05-01T10:00:00.000000000Z
key|+00:00|+01:00|100|strftime|%F %T => 2024-05-01 10:00:00 CET up => 2024-05-01T09:00:00.000000000Z
key|+00:00|+00:00|100|strftime|%F %T|strftime|%F %T %z => 2024-05-01 10:00:00 +0200 up => 2024-05-01T08:00:00.000000000Z
key|+00:00|+00:00|100|strftime|%F %T => 2024-05-01 10:00:00+02:00 until 2027-01-01 00:00:00 => ! doubt
key|+00:00|+00:00|100|strftime|%FT%T => 2024-05-01T10:00:00Z until 2027-01-01T00:00:00 x => ! doubt
key|+00:00|+00:00|100|strftime|%F %T => \x1b[2m2024-05-01 10:00:00\x1b[0m +0200 up => ! doubt
key|+00:00|+00:00|100|strftime|%F %T => 2024-05-01 10:00:00 -5000 EUR => 2024-05-01T10:00:00.000000000Z
key|+00:00|+00:00|100|strftime|%F %T => 2024-05-01 10:00:00 -12.50 EUR => 2024-05-01T10:00:00.000000000Z
key|+00:00|+00:00|100|strftime|%F %T => 2024-05-01 10:00:00 -7 C => 2024-05-01T10:00:00.000000000Z
key|+00:00|+00:00|100|strftime|%F %T => 2024-05-01 10:00:00 - 2024-05-02 10:00:00 => 2024-05-01T10:00:00.000000000Z
key|+00:00|+00:00|100|strftime|%F %T => 2024-05-01 10:00:00-2024-05-02 10:00:00 => 2024-05-01T10:00:00.000000000Z
key|+00:00|+00:00|100|strftime|%F %T => 2024-05-01 10:00:00-11:00:00 shift => 2024-05-01T10:00:00.000000000Z
key|+00:00|+00:00|100|strftime|%F %R => 2024-05-01 10:00-11:00 shift => ! doubt
key|+00:00|+00:00|100|strftime|%F %R => 2024-05-01 10:00:59 up => ! doubt
key|+00:00|+00:00|100|strftime|%F %R => 2024-05-01 10:00: up => 2024-05-01T10:00:00.000000000Z
key|+00:00|+00:00|100|strftime|%F %T => 2024-05-01 10:00:00 ::1 up => 2024-05-01T10:00:00.000000000Z
key|+00:00|-|100|v3|audit([unix_timestamp].[subsecond] => msg=audit(1609556645.123:42): x => 2021-01-02T03:04:05.123000000Z
key|+00:00|+00:00|100|strftime|%F %T => app.log:12:2024-05-01 10:00:00 up => 2024-05-01T10:00:00.000000000Z
# The longest that stands whole.
key|+00:00|+00:00|100|strftime|%F %T|v3|[year]-[month]-[day] [hour]:[minute]:[second],[subsecond] => 2024-05-01 10:00:00,250 up => 2024-05-01T10:00:00.250000000Z
key|+00:00|+00:00|100|strftime|%F %T|v3|[year]-[month]-[day] [hour]:[minute]:[second],[subsecond] => 17,2024-05-01 10:00:00,250,paid => 2024-05-01T10:00:00.000000000Z
key|+00:00|+00:00|100|strftime|%F %T => 2024-05-01 10:00:00,250 up => 2024-05-01T10:00:00.000000000Z
# Signs.
key|+00:00|+00:00|100|strftime|%F %T => --2024-05-01 10:00:00--  https://example.com/ => 2024-05-01T10:00:00.000000000Z
key|+00:00|+00:00|100|strftime|%F %T => backup-2024-05-01 10:00:00 done => 2024-05-01T10:00:00.000000000Z
key|+00:00|-|100|strftime|%s => job-1714550400 done => 2024-05-01T08:00:00.000000000Z
key|+00:00|+00:00|100|strftime|%F %T => at -0044-03-15 10:00:00 done => ! doubt
key|+00:00|-|100|strftime|%s => {\"born\":-286243200} => 1960-12-06T00:00:00.000000000Z
key|+00:00|+00:00|100|strftime|%F %T => 1.2024-05-01 10:00:00 up => ! none
# Numbers of Unix time.
key|+00:00|-|100|strftime|%s => sshd[1234]: port 51234 t=1714550400 => 2024-05-01T08:00:00.000000000Z
key|+00:00|-|100|strftime|%s => sshd[1234]: port 51234 => ! none
key|+00:00|-|100|strftime|%s => t=1714550400123 => ! none
key|+00:00|-|100|v3|[unix_timestamp].[subsecond] => adduser (3.134) 10.0.0.7 => ! none
key|+00:00|-|100|strftime|%s => 1714550400abc 1714550401 x => 2024-05-01T08:00:01.000000000Z
# The limit.
key|+00:00|-|1|rfc3339 => 2024-05-01T10:00:00Z up => 2024-05-01T10:00:00.000000000Z
key|+00:00|-|1|rfc3339 => up until 2027-01-01T00:00:00Z => ! none
key|+00:00|-|14|rfc3339 => {\"log\":\"until 2027-01-01T00:00:00Z\",\"time\":\"2024-05-01T10:00:00Z\"} => ! none
key|+00:00|+00:00|100|v3|\"time\":\"[year]-[month]-[day]T[hour]:[minute]:[second]Z\" => {\"log\":\"until 2027-01-01T00:00:00Z\",\"time\":\"2024-05-01T10:00:00Z\"} => 2024-05-01T10:00:00.000000000Z
# Colours.
key|+00:00|-|100|rfc3339 => \x1b[2m2024-05-01T10:00:00.1Z\x1b[0m up => 2024-05-01T10:00:00.100000000Z
key|+00:00|+00:00|100|strftime|%F %T => \x1b[01;31m\x1b[K2024-05-01 10:00:00\x1b[m\x1b[K up => 2024-05-01T10:00:00.000000000Z
key|+00:00|-|100|strftime|%s => item1714550400 up => ! none
# ISO 8601.
key|+00:00|+00:00|100|iso8601 => 17,2021-01-02T03:04:05,paid => 2021-01-02T03:04:05.000000000Z
key|+00:00|+00:00|100|iso8601 => at 2021-01-02T03:04:05. => 2021-01-02T03:04:05.000000000Z
key|+00:00|+00:00|100|iso8601 => 17,2021-01-02T03:04:05,250,paid => 2021-01-02T03:04:05.000000000Z
key|+00:00|+00:00|100|iso8601 => 17,2021-01-02T03:04,17,paid => 2021-01-02T03:04:00.000000000Z
key|+00:00|+00:00|100|iso8601 => [2021-01-02T03:04:05,250][INFO ] up => 2021-01-02T03:04:05.250000000Z
key|+00:00|+00:00|100|iso8601 => 2021-01-02T03:04: up => 2021-01-02T03:04:00.000000000Z
# RFC 2822.
key|+00:00|-|100|rfc2822 => 2 Jan 2021 03:04:05 UT; x => 2021-01-02T03:04:05.000000000Z
key|+00:00|-|100|rfc2822 => 2 Jan 2021 03:04:05 Z up => 2021-01-02T03:04:05.000000000Z
key|+00:00|-|100|rfc2822 => 2 Jan 2021 03:04:05 I went => ! none
key|+00:00|-|100|rfc2822 => 2 Jan 2021 (a day) 03:04:05 +0000 => ! none
# What is given by halves.
key|+00:00|+05:30|100|v3|[year]-[month]-[day] [hour]:[minute][offset_hour sign:mandatory] => 2024-05-01 10:00+02 up => 2024-05-01T08:00:00.000000000Z
# A clock before the date.
key|+00:00|-|100|rfc3339 => 24/03/30 22:44:26 INFO until 2027-01-01T00:00:00Z => ! doubt
key|+00:00|-|100|rfc3339 => Mar 30 22:15:10 host app: 2024-03-30T22:15:09Z up => ! doubt
key|+00:00|+00:00|100|v3|app: [year]-[month]-[day]T[hour]:[minute]:[second]Z => Mar 30 22:15:10 host app: 2024-03-30T22:15:09Z up => 2024-03-30T22:15:09.000000000Z
key|+00:00|-|100|rfc3339 => 52:54:00:12:34:56 2024-05-01T10:00:00Z => 2024-05-01T10:00:00.000000000Z
key|+00:00|-|100|rfc3339 => [30/Mar/2024:15:30:37 -0700] GET /?q=2024-05-01T10:00:00Z => ! doubt
key|+00:00|+00:00|100|v3|[day]/[month repr:short]/[year]:[hour]:[minute]:[second].[subsecond] => Mar 30 22:15:10 lb haproxy[7]: 10.0.1.2:33317 [30/Mar/2024:22:15:09.123] http-in => ! doubt
key|+00:00|+00:00|100|v3|\\[[day]/[month repr:short]/[year]:[hour]:[minute]:[second].[subsecond] => Mar 30 22:15:10 lb haproxy[7]: 10.0.1.2:33317 [30/Mar/2024:22:15:09.123] http-in => 2024-03-30T22:15:09.123000000Z
key|+00:00|-|100|rfc3339 => {\"msg\":\"retry in 00:00:05\",\"time\":\"2024-05-01T10:00:00Z\"} => 2024-05-01T10:00:00.000000000Z
# A year and a time of day that are given once, and what a line says against them.
key|+00:00|+00:00|100|year|2024|strftime|%m-%d %T => 2019-05-01 10:00:00 up => ! doubt
key|+00:00|+00:00|100|year|2024|strftime|%b %e %T => May  1 10:00:00 2019 up => ! doubt
key|+00:00|+00:00|100|year|2024|rfc3339|strftime|%b %e %T => Mar 30 22:15:10 host app: 2024-03-30T22:15:09Z up => 2024-03-30T22:15:10.000000000Z
key|+00:00|+00:00|100|time|00:00|strftime|%F => 2024-05-01 opened => 2024-05-01T00:00:00.000000000Z
key|+00:00|+00:00|100|time|00:00|strftime|%F => 2024-05-01 10:00:00 opened => ! doubt
key|+00:00|+00:00|100|time|00:00|strftime|%d/%b/%Y => [10/Oct/2000:13:55:36 -0700] x => ! doubt
key|+00:00|+02:00|100|time|12:30|strftime|%F => 17;2024-05-01;12,50 => 2024-05-01T10:30:00.000000000Z
# The first date of a line, by the number of its source, and its first and last byte.
locate|+00:00|-|100|strftime|%d/%b/%Y:%H:%M:%S %z => 127.0.0.1 - - [10/Oct/2000:13:55:36 -0700] \"GET / HTTP/1.0\" 200 => 2000-10-10T20:55:36.000000000Z\t1\t16-41
locate|+00:00|-|100|rfc3339 => at 2021-01-02T03:04:05Z. => 2021-01-02T03:04:05.000000000Z\t1\t4-23
# No date begins inside a word, or after a point that stands after a digit.
locate|+00:00|-|100|rfc3339 => 1.2021-01-02T03:04:05Z => ! none
locate|+00:00|-|100|rfc3339 => x2021-01-02T03:04:05Z => ! none
locate|+00:00|-|100|rfc3339 => 12021-01-02T03:04:05Z => ! none
locate|+00:00|-|100|rfc3339 => x.2021-01-02T03:04:05Z => 2021-01-02T03:04:05.000000000Z\t1\t3-22
locate|+00:00|-|100|rfc3339 => é2021-01-02T03:04:05Z => 2021-01-02T03:04:05.000000000Z\t1\t3-22
# None ends inside a word, or before a point that stands before a digit.
locate|+00:00|-|100|rfc3339 => 2021-01-02T03:04:05Zx => ! doubt\t1\t1-20\tgoes on
locate|+00:00|-|100|rfc3339 => 2021-01-02T03:04:05Z.5 => ! doubt\t1\t1-20\tgoes on
locate|+00:00|-|100|rfc3339 => file-2021-01-02T03:04:05Z.log => 2021-01-02T03:04:05.000000000Z\t1\t6-25
# Where the first date doesn't stand whole, no later one is taken.
locate|+00:00|-|100|rfc3339 => 2021-01-02T03:04:05Z 2022-01-02T03:04:05Z => 2021-01-02T03:04:05.000000000Z\t1\t1-20
locate|+00:00|-|100|rfc3339 => 2021-01-02T03:04:05Zx 2022-01-02T03:04:05Z => ! doubt\t1\t1-20\tgoes on
locate|+00:00|-|100|rfc3339 => 2021-13-02T03:04:05Z 2022-01-02T03:04:05Z => 2022-01-02T03:04:05.000000000Z\t1\t22-41
# Of two sources the first in order, but the one that reads at an earlier place, or more there.
locate|+00:00|-|100|rfc2822|iso8601|rfc3339 => at 2021-01-02T03:04:05Z => 2021-01-02T03:04:05.000000000Z\t2\t4-23
locate|+00:00|-|100|rfc3339|rfc2822 => Sat, 02 Jan 2021 03:04:06 +0000 is 2021-01-02T03:04:05Z => 2021-01-02T03:04:06.000000000Z\t2\t1-31
locate|+00:00|+00:00|100|strftime|%F %T|v2|[year]-[month]-[day] [hour]:[minute]:[second].[subsecond] => 2021-01-02 03:04:05.5 => 2021-01-02T03:04:05.500000000Z\t2\t1-21
# White space and comments before a date of RFC 2822, and after it, are not part of it.
locate|+00:00|-|100|rfc2822 => log: Sat, 02 Jan 2021 03:04:06 +0000 (UTC) started => 2021-01-02T03:04:06.000000000Z\t1\t6-36
locate|+00:00|-|100|rfc2822 => (worker 3) 2 Jan 2021 03:04:06 Z  => 2021-01-02T03:04:06.000000000Z\t1\t12-32
# A literal of a description may stand beside a word. It is no part of what the date says.
locate|+00:00|-|100|strftime|[%FT%T%z] => host[2021-01-02T03:04:05+0100]up => 2021-01-02T02:04:05.000000000Z\t1\t6-29
# An offset is assumed. A comma without digits after it is no part of a time.
locate|+00:00|+01:00|100|v2|[year]-[month]-[day] [hour]:[minute] => [2021-01-02 03:04] x => 2021-01-02T02:04:00.000000000Z\t1\t2-17
locate|+00:00|+01:00|100|v3|[year]-[month]-[day] [hour]:[minute][optional [:[second]]] => [2021-01-02 03:04:05] x => 2021-01-02T02:04:05.000000000Z\t1\t2-20
locate|+00:00|+01:00|100|iso8601 => 20210102T030405 2 errors => 2021-01-02T02:04:05.000000000Z\t1\t1-15
locate|+00:00|+01:00|100|iso8601 => 20210102T030405, 2 errors => 2021-01-02T02:04:05.000000000Z\t1\t1-15
# The line says another offset than the one assumed, or the same.
locate|+00:00|+01:00|100|strftime|%F %T => 2021-01-02 03:04:05 +0200 up => ! doubt\t1\t1-19\tanother offset
locate|+00:00|+01:00|100|strftime|%F %T => 2021-01-02 03:04:05 +0100 up => 2021-01-02T02:04:05.000000000Z\t1\t1-19
# A date begins at one of the first places, as many as the limit says.
locate|+00:00|-|3|rfc3339 => at 2021-01-02T03:04:05Z => ! none
locate|+00:00|-|4|rfc3339 => at 2021-01-02T03:04:05Z => 2021-01-02T03:04:05.000000000Z\t1\t4-23
# A number of Unix time has nine or ten digits.
locate|+00:00|-|100|strftime|%s => job 12345678, 12345678901, 123456789 => 1973-11-29T21:33:09.000000000Z\t1\t28-36
# Far from the beginning, at the end of sixteen bytes, at the beginning of the next ones, and after them.
locate|+00:00|-|100|rfc3339 => 0123456789abcde 2021-01-02T03:04:05Z 2022-01-02T03:04:05Z => 2021-01-02T03:04:05.000000000Z\t1\t17-36
locate|+00:00|-|100|rfc3339|iso8601 => 0123456789abcdef 2021-01-02T03:04:05Z => 2021-01-02T03:04:05.000000000Z\t1\t18-37
locate|+00:00|+00:00|100|rfc2822|v3|[year]-[month]-[day]T[hour]:[minute]:[second]Z => of 12 lines 3456 were read at Tomorrow, Friday, (Sat, 02 Jan 2021 03:04:06 +0000) => 2021-01-02T03:04:06.000000000Z\t1\t50-80
locate|+00:00|-|100|strftime|(%FT%T%z => 0123456789abcdefghijklmnopqrstuvwxyz(2021-01-02T03:04:05+0100 => 2021-01-02T02:04:05.000000000Z\t1\t38-61
locate|+00:00|+00:00|100|strftime|%b %e %Y %T => Januaries and Octobers, Mayday, june 31 and May  1: 012 Jan  2 2021 03:04:05 => 2021-01-02T03:04:05.000000000Z\t1\t57-76
locate|+00:00|-|100|rfc3339|iso8601|rfc2822 => 1 22 333 4444-55-66 T Z +1 -2 Monday 7 8 9 Tue, 10 x11 y-12-13 => ! none
# Others.
locate|rfc3339 => at 2021-01-02T04:04:05+01:00 up => 2021-01-02T03:04:05.000000000Z\t1\t4-28
locate|rfc2822|rfc3339 => 2021-01-02T03:04:05Z => 2021-01-02T03:04:05.000000000Z\t2\t1-20
locate|+00:00|+00:00|100|strftime|%e %b %Y %R => at  1 Nov 2024 10:00 up => 2024-11-01T10:00:00.000000000Z\t1\t5-20
locate|+00:00|-|100|strftime|[%d/%b/%Y:%T %z] => [10/Oct/2000:13:55:36 -0700] x => 2000-10-10T20:55:36.000000000Z\t1\t2-27
locate|+00:00|+00:00|100|strftime|%F %T|v3|[year]-[month]-[day] [hour]:[minute]:[second],[subsecond] => 2024-05-01 10:00:00,250 up => 2024-05-01T10:00:00.250000000Z\t2\t1-23
locate|+00:00|+00:00|100|strftime|%F %T => at -0044-03-15 10:00:00 done => ! doubt\t1\t4-23\tanother offset
# None.
locate|rfc3339 => up => ! none
locate|+00:00|-|1|rfc3339 => up until 2027-01-01T00:00:00Z => ! none
# In doubt, and why.
locate|+00:00|+00:00|100|strftime|%F %R => 2024-05-01 10:00:59 up => ! doubt\t1\t1-16\tgoes on
locate|+00:00|-|100|rfc3339 => 24/03/30 22:44:26 INFO until 2027-01-01T00:00:00Z => ! doubt\t1\t30-49\tclock in front
locate|+00:00|+00:00|100|strftime|%F %T => 2024-05-01 10:00:00 +0200 up => ! doubt\t1\t1-19\tanother offset
locate|+00:00|+00:00|100|time|00:00|strftime|%F => 2024-05-01 10:00:00 opened => ! doubt\t1\t1-10\tanother time
locate|+00:00|+00:00|100|year|2024|strftime|%b %e %T => May  1 10:00:00 2019 up => ! doubt\t1\t1-15\tanother year
# By several sources.
locate|+00:00|+00:00|100|time|00:00|strftime|%F %R|rfc3339|strftime|%F => 2024-05-01 10:00:59 up => ! doubt\t1\t1-16\tgoes on\t3\t1-10\tanother time
# Labels between keys and lines, names of formats, and lines that are read whole.
key|label||rfc3339 => 2024-05-01T10:00:00Z up => 2024-05-01T10:00:00.000000000Z\t
key|+00:00|+00:00|64|year|2023|time|12:30|label|x|strftime|%b %e => May  1 up => 2023-05-01T12:30:00.000000000Z\tx
key|+00:00|-|64|access-log => [10/Oct/2000:13:55:36 -0700] GET => 2000-10-10T20:55:36.000000000Z
explain|+00:00|+00:00|64|rfc3339|mysql => 2024-05-01 10:00:00 => 2\t2024-05-01T10:00:00.000000000Z
explain|+00:00|-|8|rfc3339 => 2024-05-01T10:00:00+02:00 => ! long
# Dates that are replaced.
replace|+00:00|-|8|rfc3339 => 2024-05-01T10:00:00+02:00 a line longer than the limit => 2024-05-01T08:00:00.000000000Z a line longer than the limit
replace|+00:00|+00:00|100|strftime|%e %b %Y %R => at  1 Nov 2024 10:00 up => at  2024-11-01T10:00:00.000000000Z up
replace|+00:00|-|100|rfc2822 => Date: Sat, 02 Jan 2021 03:04:05 +0000 (Alice) fixed => Date: 2021-01-02T03:04:05.000000000Z (Alice) fixed
replace|+00:00|+00:00|100|v3|\"time\":\"[year]-[month]-[day]T[hour]:[minute]:[second]Z\" => {\"time\":\"2024-05-01T10:00:00Z\"} => {\"time\":\"2024-05-01T10:00:00.000000000Z\"}
replace|+00:00|-|100|v3|[unix_timestamp].[subsecond][end trailing_input:discard] => 1609556645.123 host cron: run => 2021-01-02T03:04:05.123000000Z host cron: run
replace|+00:00|-|100|strftime|[%d/%b/%Y:%T %z] => [10/Oct/2000:13:55:36 -0700] x => [2000-10-10T20:55:36.000000000Z] x
replace|+00:00|+02:00|100|strftime|%F %T CEST => 2024-05-01 10:00:00 CEST up => 2024-05-01T08:00:00.000000000Z up
replace|+00:00|-|100|iso8601 => 2021-01-02T03:04:05+01: up => 2021-01-02T02:04:05.000000000Z: up";

// What stands after the end of a row in what is written: nothing, a line feed, or a tab and the line.
fn after_row(alloc: Global, row: &str) -> Option<u8> {
    let (row, said) = row.rsplit_once(" => ")?;
    let (words, line) = row.split_once(" => ")?;
    next_byte(alloc, words, line, said)
}

// Whether a row's end is the end of a line, or of a key before it.
fn is_answered(alloc: Global, row: &str) -> bool {
    matches!(after_row(alloc, row), Some(0 | b'\t' | b'\n'))
}

#[test]
fn dates(rt: HostRuntime) {
    for row in ROWS.lines() {
        if !row.starts_with('#') {
            assert!(rt; is_answered(rt.alloc(), row), "{row}");
        }
    }
}
