//! The table of formats. Above each entry stand the programs that write it, a line, and the key of that line.

use crate::format::{Format, Lacking};

pub(crate) static FORMATS: [Format; 52] = [
    // nginx and Apache: access log; Amazon S3, Squid with `logformat common`, CUPS.
    //     127.0.0.1 - - [10/Oct/2000:13:55:36 -0700] "GET / HTTP/1.0" 200 12
    //     2000-10-10T20:55:36.000000000Z
    Format {
        name: "access-log",
        language: "strftime",
        description: "[%d/%b/%Y:%T %z]",
        lacks: Lacking::Nothing,
    },
    // Go: `time.Time` as printed; Rails, Gunicorn, `git log --date=iso`.
    //     started at 2021-01-02 03:04:05.123456789 +0100 CET
    //     2021-01-02T02:04:05.123456789Z
    Format {
        name: "go-time",
        language: "v3",
        description: "[year]-[month]-[day] [hour]:[minute]:[second][optional [.[subsecond]]] [offset_hour sign:mandatory][offset_minute]",
        lacks: Lacking::Nothing,
    },
    // Serilog: files; .NET: `DateTimeOffset`.
    //     2021-01-02 03:04:05.123 +01:00 [INF] up
    //     2021-01-02T02:04:05.123000000Z
    Format {
        name: "serilog",
        language: "v3",
        description: "[year]-[month]-[day] [hour]:[minute]:[second].[subsecond] [offset_hour sign:mandatory]:[offset_minute]",
        lacks: Lacking::Nothing,
    },
    // Jenkins; macOS: `log show`.
    //     2021-01-02 03:04:05.123+0100 [id=26] INFO up
    //     2021-01-02T02:04:05.123000000Z
    Format {
        name: "jenkins",
        language: "v3",
        description: "[year]-[month]-[day] [hour]:[minute]:[second].[subsecond][offset_hour sign:mandatory][offset_minute]",
        lacks: Lacking::Nothing,
    },
    // PostgreSQL: output of `timestamptz`; macOS: `install.log`.
    //     7 | 2021-01-02 03:04:05.5+01 | up
    //     2021-01-02T02:04:05.500000000Z
    Format {
        name: "psql",
        language: "v3",
        description: "[year]-[month]-[day] [hour]:[minute]:[second][optional [.[subsecond]]][offset_hour sign:mandatory][optional [:[offset_minute]]]",
        lacks: Lacking::Nothing,
    },
    // `git log` without options.
    //     Date:   Sat Jan 2 03:04:05 2021 +0100
    //     2021-01-02T02:04:05.000000000Z
    Format {
        name: "git-log",
        language: "strftime",
        description: "%a %b %-d %T %Y %z",
        lacks: Lacking::Nothing,
    },
    // Twitter: `created_at`; Ruby: `Time` before 1.9.
    //     {"created_at":"Sat Jan 02 03:04:05 +0100 2021","id":7}
    //     2021-01-02T02:04:05.000000000Z
    Format {
        name: "twitter",
        language: "strftime",
        description: "%a %b %e %T %z %Y",
        lacks: Lacking::Nothing,
    },
    // Docker: files of `json-file`, where a message has a date of its own.
    //     {"log":"until 2027-01-01T00:00:00Z","stream":"stdout","time":"2021-01-02T03:04:05.123456789Z"}
    //     2021-01-02T03:04:05.123456789Z
    Format {
        name: "docker-json",
        language: "v3",
        description: "\"time\":\"[year]-[month]-[day]T[hour]:[minute]:[second][optional [.[subsecond]]]Z\"",
        lacks: Lacking::Utc,
    },
    // JSON with the key of its time, where a message may have a date of its own: Bunyan, zerolog, logrus, Logstash, Cloud Logging.
    //     {"msg":"until 2027-01-01T00:00:00Z","ts":"2021-01-02T03:04:05.123+01:00"}
    //     2021-01-02T02:04:05.123000000Z
    Format {
        name: "json-time",
        language: "v3",
        description: "[first [\"time\"] [\"ts\"] [\"timestamp\"] [\"@timestamp\"] [\"eventTime\"]]:\"[year]-[month]-[day]T[hour]:[minute]:[second][optional [.[subsecond]]][first [Z] [[offset_hour sign:mandatory]:[offset_minute]]]\"",
        lacks: Lacking::Utc,
    },
    // auditd.
    //     type=SYSCALL msg=audit(1609556645.123:42): arch=c000003e
    //     2021-01-02T03:04:05.123000000Z
    Format {
        name: "auditd",
        language: "v3",
        description: "audit([unix_timestamp].[subsecond]",
        lacks: Lacking::Nothing,
    },
    // HAProxy, alone or after a syslog's date.
    //     Jan  2 03:04:06 lb haproxy[7]: 10.0.1.2:33317 [02/Jan/2021:03:04:05.123] http-in static/srv1
    //     2021-01-02T03:04:05.123000000Z
    Format {
        name: "haproxy",
        language: "v3",
        description: "\\[[day]/[month repr:short]/[year]:[hour]:[minute]:[second].[subsecond]",
        lacks: Lacking::Offset,
    },
    // Apache: error log.
    //     [Sat Jan 02 03:04:05.123456 2021] [core:error] [pid 7] no file
    //     2021-01-02T03:04:05.123456000Z
    Format {
        name: "apache-error",
        language: "v3",
        description: "[weekday repr:short] [month repr:short] [day] [hour]:[minute]:[second].[subsecond] [year]",
        lacks: Lacking::Offset,
    },
    // Python: `logging`; log4j, Logback, Kafka, Hadoop, ZooKeeper, Cassandra, Celery, fail2ban.
    //     [main] 2021-01-02 03:04:05,678 INFO up
    //     2021-01-02T03:04:05.678000000Z
    Format {
        name: "python-logging",
        language: "v3",
        description: "[year]-[month]-[day] [hour]:[minute]:[second],[subsecond]",
        lacks: Lacking::Offset,
    },
    // PostgreSQL: log; SQL Server, Spring Boot 2, Envoy, etcd, MySQL: `DATETIME(6)`.
    //     2021-01-02 03:04:05.123 UTC [7] LOG:  up
    //     2021-01-02T03:04:05.123000000Z
    Format {
        name: "postgres",
        language: "v3",
        description: "[year]-[month]-[day] [hour]:[minute]:[second].[subsecond]",
        lacks: Lacking::Offset,
    },
    // Go: `log` with microseconds; Samba.
    //     2021/01/02 03:04:05.123456 main.go:7: up
    //     2021-01-02T03:04:05.123456000Z
    Format {
        name: "go-log",
        language: "v3",
        description: "[year]/[month]/[day] [hour]:[minute]:[second].[subsecond]",
        lacks: Lacking::Offset,
    },
    // Tomcat, BIND.
    //     02-Jan-2021 03:04:05.123 INFO [main] up
    //     2021-01-02T03:04:05.123000000Z
    Format {
        name: "tomcat",
        language: "v3",
        description: "[day]-[month repr:short]-[year] [hour]:[minute]:[second].[subsecond]",
        lacks: Lacking::Offset,
    },
    // Redis, Valkey.
    //     7:M 02 Jan 2021 03:04:05.123 * Ready to accept connections
    //     2021-01-02T03:04:05.123000000Z
    Format {
        name: "redis",
        language: "v3",
        description: "[day] [month repr:short] [year] [hour]:[minute]:[second].[subsecond]",
        lacks: Lacking::Offset,
    },
    // Suricata: `fast.log`.
    //     01/02/2021-03:04:05.123456  [**] [1:2010935:3] ET SCAN [**]
    //     2021-01-02T03:04:05.123456000Z
    Format {
        name: "suricata",
        language: "v3",
        description: "[month]/[day]/[year]-[hour]:[minute]:[second].[subsecond]",
        lacks: Lacking::Offset,
    },
    // Erlang, RabbitMQ, CouchDB: reports.
    //     =INFO REPORT==== 2-Jan-2021::03:04:05.123456 ===
    //     2021-01-02T03:04:05.123456000Z
    Format {
        name: "erlang",
        language: "v3",
        description: "[day padding:none]-[month repr:short]-[year]::[hour]:[minute]:[second][optional [.[subsecond]]]",
        lacks: Lacking::Offset,
    },
    // glog with a year.
    //     I20210102 03:04:05.123456     7 main.cc:10] up
    //     2021-01-02T03:04:05.123456000Z
    Format {
        name: "glog",
        language: "v3",
        description: "[first [I] [W] [E] [F]][year][month][day] [hour]:[minute]:[second].[subsecond]",
        lacks: Lacking::Offset,
    },
    // `java.util.logging`.
    //     Jan 02, 2021 3:04:05 PM org.example.Main run
    //     2021-01-02T15:04:05.000000000Z
    Format {
        name: "java-logging",
        language: "v3",
        description: "[month repr:short] [day], [year] [hour repr:12 padding:none]:[minute]:[second] [period]",
        lacks: Lacking::Offset,
    },
    // Dates of the United States with AM and PM, each number in two digits.
    //     01/02/2021 03:04:05.12 PM up
    //     2021-01-02T15:04:05.120000000Z
    Format {
        name: "mdy-am-pm",
        language: "v3",
        description: "[month]/[day]/[year] [hour repr:12]:[minute]:[second][optional [.[subsecond]]] [period]",
        lacks: Lacking::Offset,
    },
    // Windows: events as exported in the United States.
    //     Information,1/2/2021 3:04:05 PM,Service Control Manager,7036
    //     2021-01-02T15:04:05.000000000Z
    Format {
        name: "windows-events",
        language: "v3",
        description: "[month padding:none]/[day padding:none]/[year] [hour repr:12 padding:none]:[minute]:[second] [period]",
        lacks: Lacking::Offset,
    },
    // Windows: events as exported in Germany.
    //     Informationen;02.01.2021 03:04:05;Service Control Manager;7036
    //     2021-01-02T03:04:05.000000000Z
    Format {
        name: "dmy-dots",
        language: "v3",
        description: "[day].[month].[year] [hour]:[minute]:[second][optional [.[subsecond]]]",
        lacks: Lacking::Offset,
    },
    // Dates of Great Britain, day first.
    //     02/01/2021 03:04:05.123 INFO up
    //     2021-01-02T03:04:05.123000000Z
    Format {
        name: "dmy",
        language: "v3",
        description: "[day]/[month]/[year] [hour]:[minute]:[second][optional [.[subsecond]]]",
        lacks: Lacking::Offset,
    },
    // Dates of the United States, month first; SharePoint: ULS.
    //     01/02/2021 03:04:05.123 INFO up
    //     2021-01-02T03:04:05.123000000Z
    Format {
        name: "mdy",
        language: "v3",
        description: "[month]/[day]/[year] [hour]:[minute]:[second][optional [.[subsecond]]]",
        lacks: Lacking::Offset,
    },
    // `ctime`, `dmesg -T`, vsftpd, uWSGI, Apache 2.2: error log.
    //     Sat Jan  2 03:04:05 2021 [pid 7] CONNECT: Client 10.0.1.2
    //     2021-01-02T03:04:05.000000000Z
    Format {
        name: "ctime",
        language: "strftime",
        description: "%a %b %e %T %Y",
        lacks: Lacking::Offset,
    },
    // `date`, in UTC.
    //     backup done: Sat Jan  2 03:04:05 UTC 2021
    //     2021-01-02T03:04:05.000000000Z
    Format {
        name: "date-utc",
        language: "strftime",
        description: "%a %b %e %T UTC %Y",
        lacks: Lacking::Utc,
    },
    // Amazon CloudFront.
    //     2021-01-02\t03:04:05\tLHR62-C2\t2390\t10.0.1.2\tGET
    //     2021-01-02T03:04:05.000000000Z
    Format {
        name: "cloudfront",
        language: "strftime",
        description: "%F%t%T",
        lacks: Lacking::Offset,
    },
    // apt: `history.log`.
    //     Start-Date: 2021-01-02  03:04:05
    //     2021-01-02T03:04:05.000000000Z
    Format {
        name: "apt",
        language: "strftime",
        description: "%F  %T",
        lacks: Lacking::Offset,
    },
    // MySQL, Laravel, Exim, dpkg; IIS and other logs of the W3C; `journalctl -o short-full`.
    //     2021-01-02 03:04:05 7 [Note] up
    //     2021-01-02T03:04:05.000000000Z
    Format {
        name: "mysql",
        language: "strftime",
        description: "%F %T",
        lacks: Lacking::Offset,
    },
    // MariaDB.
    //     2021-01-02  3:04:05 0 [Note] up
    //     2021-01-02T03:04:05.000000000Z
    Format {
        name: "mariadb",
        language: "strftime",
        description: "%F %k:%M:%S",
        lacks: Lacking::Offset,
    },
    // nginx: error log; Go: `log`; Squid: `cache.log`.
    //     2021/01/02 03:04:05 [error] 7#7: *1 open() failed
    //     2021-01-02T03:04:05.000000000Z
    Format {
        name: "nginx-error",
        language: "strftime",
        description: "%Y/%m/%d %T",
        lacks: Lacking::Offset,
    },
    // PHP: error log; php-fpm.
    //     [02-Jan-2021 03:04:05 UTC] PHP Warning:  no file
    //     2021-01-02T03:04:05.000000000Z
    Format {
        name: "php",
        language: "strftime",
        description: "%d-%b-%Y %T",
        lacks: Lacking::Offset,
    },
    // Oracle: listener and alert logs, months in any case.
    //     02-JAN-2021 03:04:05 * service_update * db * 0
    //     2021-01-02T03:04:05.000000000Z
    Format {
        name: "oracle",
        language: "v3",
        description: "[day]-[month repr:short case_sensitive:false]-[year] [hour]:[minute]:[second]",
        lacks: Lacking::Offset,
    },
    // Cisco ASA.
    //     Jan 02 2021 03:04:05: %ASA-6-302013: Built
    //     2021-01-02T03:04:05.000000000Z
    Format {
        name: "cisco-asa",
        language: "strftime",
        description: "%b %e %Y %T",
        lacks: Lacking::Offset,
    },
    // `openssl x509 -dates`.
    //     notBefore=Jan  2 03:04:05 2021 GMT
    //     2021-01-02T03:04:05.000000000Z
    Format {
        name: "openssl",
        language: "strftime",
        description: "%b %e %T %Y",
        lacks: Lacking::Offset,
    },
    // pacman before 5.2; tables with minutes.
    //     [2021-01-02 03:04] [ALPM] upgraded linux
    //     2021-01-02T03:04:00.000000000Z
    Format {
        name: "pacman",
        language: "strftime",
        description: "%F %R",
        lacks: Lacking::Offset,
    },
    // Squid: `access.log`; zap and Caddy, `journalctl -o short-unix`, `strace -ttt`, `tcpdump -tt`.
    //     1609556645.123    456 10.0.1.2 TCP_MISS/200 5120 GET
    //     2021-01-02T03:04:05.123000000Z
    Format {
        name: "unix-fraction",
        language: "v3",
        description: "[unix_timestamp].[subsecond]",
        lacks: Lacking::Nothing,
    },
    // Loki, OpenTelemetry.
    //     {"timeUnixNano":"1609556645123456789","body":"up"}
    //     2021-01-02T03:04:05.123456789Z
    Format {
        name: "unix-nanos",
        language: "v3",
        description: "[unix_timestamp precision:nanosecond]",
        lacks: Lacking::Nothing,
    },
    // `journalctl -o json`.
    //     {"__REALTIME_TIMESTAMP":"1609556645123456","MESSAGE":"up"}
    //     2021-01-02T03:04:05.123456000Z
    Format {
        name: "unix-micros",
        language: "v3",
        description: "[unix_timestamp precision:microsecond]",
        lacks: Lacking::Nothing,
    },
    // pino, CloudWatch.
    //     {"level":30,"time":1609556645123,"msg":"up"}
    //     2021-01-02T03:04:05.123000000Z
    Format {
        name: "unix-millis",
        language: "v3",
        description: "[unix_timestamp precision:millisecond]",
        lacks: Lacking::Nothing,
    },
    // Nagios, Unbound.
    //     [1609556645] SERVICE ALERT: host;up
    //     2021-01-02T03:04:05.000000000Z
    Format {
        name: "unix-time",
        language: "strftime",
        description: "%s",
        lacks: Lacking::Nothing,
    },
    // klog, glog: Kubernetes.
    //     I0102 03:04:05.123456       7 main.go:10] up
    //     2024-01-02T03:04:05.123456000Z
    Format {
        name: "klog",
        language: "v3",
        description: "[first [I] [W] [E] [F]][month][day] [hour]:[minute]:[second].[subsecond]",
        lacks: Lacking::YearAndOffset,
    },
    // Android: `logcat`.
    //     01-02 03:04:05.123  1234  5678 I Tag: up
    //     2024-01-02T03:04:05.123000000Z
    Format {
        name: "logcat",
        language: "v3",
        description: "[month]-[day] [hour]:[minute]:[second].[subsecond]",
        lacks: Lacking::YearAndOffset,
    },
    // Snort: alerts.
    //     01/02-03:04:05.123456  [**] [1:469:3] ICMP PING NMAP [**]
    //     2024-01-02T03:04:05.123456000Z
    Format {
        name: "snort",
        language: "v3",
        description: "[month]/[day]-[hour]:[minute]:[second].[subsecond]",
        lacks: Lacking::YearAndOffset,
    },
    // syslog with a fraction: Cisco IOS; `journalctl -o short-precise`.
    //     Jan  2 03:04:05.123456 host cron[1]: run
    //     2024-01-02T03:04:05.123456000Z
    Format {
        name: "syslog-fraction",
        language: "v3",
        description: "[month repr:short] [day padding:space] [hour]:[minute]:[second].[subsecond]",
        lacks: Lacking::YearAndOffset,
    },
    // syslog (RFC 3164), macOS: `system.log`; Postfix, sshd, cron.
    //     Jan  2 03:04:05 host cron[1]: run
    //     2024-01-02T03:04:05.000000000Z
    Format {
        name: "syslog",
        language: "strftime",
        description: "%b %e %T",
        lacks: Lacking::YearAndOffset,
    },
    // Spark, HDFS: a year of two digits, of which the year that is given says the century.
    //     21/01/02 03:04:05 INFO SparkContext: up
    //     2021-01-02T03:04:05.000000000Z
    Format {
        name: "spark",
        language: "strftime",
        description: "%y/%m/%d %T",
        lacks: Lacking::YearAndOffset,
    },
    // Dates of Great Britain with such a year; WebSphere.
    //     02/01/21 03:04:05 INFO up
    //     2021-01-02T03:04:05.000000000Z
    Format {
        name: "dmy-short",
        language: "strftime",
        description: "%d/%m/%y %T",
        lacks: Lacking::YearAndOffset,
    },
    // Ledger, hledger.
    //     2021/01/02 opened
    //     2021-01-02T00:00:00.000000000Z
    Format {
        name: "ledger",
        language: "strftime",
        description: "%Y/%m/%d",
        lacks: Lacking::TimeAndOffset,
    },
    // dates alone.
    //     2021-01-02 opened
    //     2021-01-02T00:00:00.000000000Z
    Format {
        name: "date",
        language: "strftime",
        description: "%F",
        lacks: Lacking::TimeAndOffset,
    },
];
