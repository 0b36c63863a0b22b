//! Worked allotments: lines that `holds` reads, each by arithmetic that can be done by hand.

use crate::answers::holds;
use std::test::Fail;

// The example of LOREG, article 163: 480,000 votes and 8 seats, and its threshold of 3 per cent. By
// D'Hondt its seats are the law's own; by the other two rules the last seat is no longer A's fourth
// but E's first. By Hare's rule the whole quotas are 2, 1, 1 and 1, and the greatest remainders are
// A's, B's and E's.
const LOREG: &str = "\
allot dhondt 300 8 0: 168000 104000 72000 64000 40000 32000 = [4, 2, 1, 1, 0, 0]
need dhondt 300 8 0: 168000 104000 72000 64000 40000 32000 = no lot
right 4 2 1 1 0 0: dhondt 300 8 0: 168000 104000 72000 64000 40000 32000
wrong 3 2 1 1 1 0: dhondt 300 8 0: 168000 104000 72000 64000 40000 32000
allot sainte-lague 0 8 0: 168000 104000 72000 64000 40000 32000 = [3, 2, 1, 1, 1, 0]
allot hare 0 8 0: 168000 104000 72000 64000 40000 32000 = [3, 2, 1, 1, 1, 0]
awards dhondt 300 8 0: 168000 104000 72000 64000 40000 32000 = \
[Award { list: 1, k: 1, num: 168000, den: 1 }, Award { list: 2, k: 1, num: 104000, den: 1 }, \
Award { list: 1, k: 2, num: 168000, den: 2 }, Award { list: 3, k: 1, num: 72000, den: 1 }, \
Award { list: 4, k: 1, num: 64000, den: 1 }, Award { list: 1, k: 3, num: 168000, den: 3 }, \
Award { list: 2, k: 2, num: 104000, den: 2 }, Award { list: 1, k: 4, num: 168000, den: 4 }]
awards sainte-lague 0 8 0: 168000 104000 72000 64000 40000 32000 = \
[Award { list: 1, k: 1, num: 168000, den: 1 }, Award { list: 2, k: 1, num: 104000, den: 1 }, \
Award { list: 3, k: 1, num: 72000, den: 1 }, Award { list: 4, k: 1, num: 64000, den: 1 }, \
Award { list: 1, k: 2, num: 168000, den: 3 }, Award { list: 5, k: 1, num: 40000, den: 1 }, \
Award { list: 2, k: 2, num: 104000, den: 3 }, Award { list: 1, k: 3, num: 168000, den: 5 }]
quotas hare 0 8 0: 168000 104000 72000 64000 40000 32000 = \
[QuotaRow { list: 1, whole: 2, rem: 384000, extra: true }, QuotaRow { list: 2, whole: 1, rem: 352000, extra: true }, \
QuotaRow { list: 3, whole: 1, rem: 96000, extra: false }, QuotaRow { list: 4, whole: 1, rem: 32000, extra: false }, \
QuotaRow { list: 5, whole: 0, rem: 320000, extra: true }, QuotaRow { list: 6, whole: 0, rem: 256000, extra: false }]";

// 35/2 is above 52/3, though both have the whole part 17. Then equal quotients, and more votes
// decide; equal votes, and no choice. Hare's quota is that of the 80 votes for lists, so that 3 *
// 70 leaves 50 and 3 * 10 leaves 30. Then the greatest numbers, and two lists without votes among
// blank ones.
const DECIDED: &str = "\
allot dhondt 0 4 0: 52 35 = [2, 2]
allot dhondt 0 2 0: 200 100 = [2, 0]
need dhondt 0 2 0: 200 100 = no lot
allot dhondt 0 2 0: 100 200 = [0, 2]
allot dhondt 0 4 0: 100 100 = [2, 2]
allot hare 0 3 20: 70 10 = [3, 0]
quotas hare 0 3 20: 70 10 = \
[QuotaRow { list: 1, whole: 2, rem: 50, extra: true }, QuotaRow { list: 2, whole: 0, rem: 30, extra: false }]
allot dhondt 0 500 0: 5000000000 = [500]
awards dhondt 0 2 0: 5000000000 = \
[Award { list: 1, k: 1, num: 5000000000, den: 1 }, Award { list: 1, k: 2, num: 5000000000, den: 2 }]
allot dhondt 0 3 50: 0 0 = no list is eligible
need dhondt 0 3 50: 0 0 = no list is eligible
wrong 3 0: dhondt 0 3 50: 0 0";

// A's second quotient, 53 by 3, is below B's 24; by the modified rule it is above B's 24 by 1.4,
// though both have the whole part 17.
const FIRST_DIVISOR: &str = "\
allot sainte-lague 0 2 0: 53 24 23 = [1, 1, 0]
allot modified-sainte-lague 0 2 0: 53 24 23 = [2, 0, 0]
awards modified-sainte-lague 0 2 0: 53 24 23 = \
[Award { list: 1, k: 1, num: 265, den: 7 }, Award { list: 1, k: 2, num: 265, den: 15 }]";

// Votes in the proportion of whole numbers of seats, a thousand votes a seat: each rule gives these
// seats. Then as many lists and seats as there may be: twenty lists have fifteen seats and forty
// have five. By D'Hondt each last seat has the quotient 1,000, and one seat more takes a thousand
// votes, with which a list has more than those of five. By Sainte-Laguë the lowest last seat is a
// fifteenth, with 15,000 / 29: a sixteenth takes 31 times as many, 16,035, and a sixth 11 times,
// 5,690. Hare's quota is 1,000.
const PROPORTIONS: &str = "\
allot dhondt 0 120 0: 60000 32000 14000 11000 2000 1000 = [60, 32, 14, 11, 2, 1]
allot sainte-lague 0 120 0: 60000 32000 14000 11000 2000 1000 = [60, 32, 14, 11, 2, 1]
allot hare 0 120 0: 60000 32000 14000 11000 2000 1000 = [60, 32, 14, 11, 2, 1]
allot dhondt 0 500 0: 15000 15000 15000 15000 15000 15000 15000 15000 15000 15000 15000 15000 \
15000 15000 15000 15000 15000 15000 15000 15000 5000 5000 5000 5000 5000 5000 5000 5000 5000 \
5000 5000 5000 5000 5000 5000 5000 5000 5000 5000 5000 5000 5000 5000 5000 5000 5000 5000 5000 \
5000 5000 5000 5000 5000 5000 5000 5000 5000 5000 5000 5000 = [15, 15, 15, 15, 15, 15, 15, 15, \
15, 15, 15, 15, 15, 15, 15, 15, 15, 15, 15, 15, 5, 5, 5, 5, 5, 5, 5, 5, 5, 5, 5, 5, 5, 5, 5, 5, \
5, 5, 5, 5, 5, 5, 5, 5, 5, 5, 5, 5, 5, 5, 5, 5, 5, 5, 5, 5, 5, 5, 5, 5]
need dhondt 0 500 0: 15000 15000 15000 15000 15000 15000 15000 15000 15000 15000 15000 15000 \
15000 15000 15000 15000 15000 15000 15000 15000 5000 5000 5000 5000 5000 5000 5000 5000 5000 \
5000 5000 5000 5000 5000 5000 5000 5000 5000 5000 5000 5000 5000 5000 5000 5000 5000 5000 5000 \
5000 5000 5000 5000 5000 5000 5000 5000 5000 5000 5000 5000 = no lot
allot sainte-lague 0 500 0: 15000 15000 15000 15000 15000 15000 15000 15000 15000 15000 15000 \
15000 15000 15000 15000 15000 15000 15000 15000 15000 5000 5000 5000 5000 5000 5000 5000 5000 \
5000 5000 5000 5000 5000 5000 5000 5000 5000 5000 5000 5000 5000 5000 5000 5000 5000 5000 5000 \
5000 5000 5000 5000 5000 5000 5000 5000 5000 5000 5000 5000 5000 = [15, 15, 15, 15, 15, 15, 15, \
15, 15, 15, 15, 15, 15, 15, 15, 15, 15, 15, 15, 15, 5, 5, 5, 5, 5, 5, 5, 5, 5, 5, 5, 5, 5, 5, 5, \
5, 5, 5, 5, 5, 5, 5, 5, 5, 5, 5, 5, 5, 5, 5, 5, 5, 5, 5, 5, 5, 5, 5, 5, 5]
need sainte-lague 0 500 0: 15000 15000 15000 15000 15000 15000 15000 15000 15000 15000 15000 \
15000 15000 15000 15000 15000 15000 15000 15000 15000 5000 5000 5000 5000 5000 5000 5000 5000 \
5000 5000 5000 5000 5000 5000 5000 5000 5000 5000 5000 5000 5000 5000 5000 5000 5000 5000 5000 \
5000 5000 5000 5000 5000 5000 5000 5000 5000 5000 5000 5000 5000 = no lot
allot modified-sainte-lague 0 500 0: 15000 15000 15000 15000 15000 15000 15000 15000 15000 15000 \
15000 15000 15000 15000 15000 15000 15000 15000 15000 15000 5000 5000 5000 5000 5000 5000 5000 \
5000 5000 5000 5000 5000 5000 5000 5000 5000 5000 5000 5000 5000 5000 5000 5000 5000 5000 5000 \
5000 5000 5000 5000 5000 5000 5000 5000 5000 5000 5000 5000 5000 5000 = [15, 15, 15, 15, 15, 15, \
15, 15, 15, 15, 15, 15, 15, 15, 15, 15, 15, 15, 15, 15, 5, 5, 5, 5, 5, 5, 5, 5, 5, 5, 5, 5, 5, \
5, 5, 5, 5, 5, 5, 5, 5, 5, 5, 5, 5, 5, 5, 5, 5, 5, 5, 5, 5, 5, 5, 5, 5, 5, 5, 5]
need modified-sainte-lague 0 500 0: 15000 15000 15000 15000 15000 15000 15000 15000 15000 15000 \
15000 15000 15000 15000 15000 15000 15000 15000 15000 15000 5000 5000 5000 5000 5000 5000 5000 \
5000 5000 5000 5000 5000 5000 5000 5000 5000 5000 5000 5000 5000 5000 5000 5000 5000 5000 5000 \
5000 5000 5000 5000 5000 5000 5000 5000 5000 5000 5000 5000 5000 5000 = no lot
allot hare 0 500 0: 15000 15000 15000 15000 15000 15000 15000 15000 15000 15000 15000 15000 \
15000 15000 15000 15000 15000 15000 15000 15000 5000 5000 5000 5000 5000 5000 5000 5000 5000 \
5000 5000 5000 5000 5000 5000 5000 5000 5000 5000 5000 5000 5000 5000 5000 5000 5000 5000 5000 \
5000 5000 5000 5000 5000 5000 5000 5000 5000 5000 5000 5000 = [15, 15, 15, 15, 15, 15, 15, 15, \
15, 15, 15, 15, 15, 15, 15, 15, 15, 15, 15, 15, 5, 5, 5, 5, 5, 5, 5, 5, 5, 5, 5, 5, 5, 5, 5, 5, \
5, 5, 5, 5, 5, 5, 5, 5, 5, 5, 5, 5, 5, 5, 5, 5, 5, 5, 5, 5, 5, 5, 5, 5]
need hare 0 500 0: 15000 15000 15000 15000 15000 15000 15000 15000 15000 15000 15000 15000 15000 \
15000 15000 15000 15000 15000 15000 15000 5000 5000 5000 5000 5000 5000 5000 5000 5000 5000 5000 \
5000 5000 5000 5000 5000 5000 5000 5000 5000 5000 5000 5000 5000 5000 5000 5000 5000 5000 5000 \
5000 5000 5000 5000 5000 5000 5000 5000 5000 5000 = no lot
right 15 15 15 15 15 15 15 15 15 15 15 15 15 15 15 15 15 15 15 15 5 5 5 5 5 5 5 5 5 5 5 5 5 5 5 \
5 5 5 5 5 5 5 5 5 5 5 5 5 5 5 5 5 5 5 5 5 5 5 5 5: dhondt 0 500 0: 15000 15000 15000 15000 15000 \
15000 15000 15000 15000 15000 15000 15000 15000 15000 15000 15000 15000 15000 15000 15000 5000 \
5000 5000 5000 5000 5000 5000 5000 5000 5000 5000 5000 5000 5000 5000 5000 5000 5000 5000 5000 \
5000 5000 5000 5000 5000 5000 5000 5000 5000 5000 5000 5000 5000 5000 5000 5000 5000 5000 5000 \
5000
wrong 14 15 15 15 15 15 15 15 15 15 15 15 15 15 15 15 15 15 15 15 5 5 5 5 5 5 5 5 5 5 5 5 5 5 5 \
5 5 5 5 5 5 5 5 5 5 5 5 5 5 5 5 5 5 5 5 5 5 5 5 6: dhondt 0 500 0: 15000 15000 15000 15000 15000 \
15000 15000 15000 15000 15000 15000 15000 15000 15000 15000 15000 15000 15000 15000 15000 5000 \
5000 5000 5000 5000 5000 5000 5000 5000 5000 5000 5000 5000 5000 5000 5000 5000 5000 5000 5000 \
5000 5000 5000 5000 5000 5000 5000 5000 5000 5000 5000 5000 5000 5000 5000 5000 5000 5000 5000 \
5000
right 15 15 15 15 15 15 15 15 15 15 15 15 15 15 15 15 15 15 15 15 5 5 5 5 5 5 5 5 5 5 5 5 5 5 5 \
5 5 5 5 5 5 5 5 5 5 5 5 5 5 5 5 5 5 5 5 5 5 5 5 5: hare 0 500 0: 15000 15000 15000 15000 15000 \
15000 15000 15000 15000 15000 15000 15000 15000 15000 15000 15000 15000 15000 15000 15000 5000 \
5000 5000 5000 5000 5000 5000 5000 5000 5000 5000 5000 5000 5000 5000 5000 5000 5000 5000 5000 \
5000 5000 5000 5000 5000 5000 5000 5000 5000 5000 5000 5000 5000 5000 5000 5000 5000 5000 5000 \
5000
wrong 14 15 15 15 15 15 15 15 15 15 15 15 15 15 15 15 15 15 15 15 5 5 5 5 5 5 5 5 5 5 5 5 5 5 5 \
5 5 5 5 5 5 5 5 5 5 5 5 5 5 5 5 5 5 5 5 5 5 5 5 6: hare 0 500 0: 15000 15000 15000 15000 15000 \
15000 15000 15000 15000 15000 15000 15000 15000 15000 15000 15000 15000 15000 15000 15000 5000 \
5000 5000 5000 5000 5000 5000 5000 5000 5000 5000 5000 5000 5000 5000 5000 5000 5000 5000 5000 \
5000 5000 5000 5000 5000 5000 5000 5000 5000 5000 5000 5000 5000 5000 5000 5000 5000 5000 5000 \
5000
short dhondt 0 500 0: 15000 15000 15000 15000 15000 15000 15000 15000 15000 15000 15000 15000 \
15000 15000 15000 15000 15000 15000 15000 15000 5000 5000 5000 5000 5000 5000 5000 5000 5000 \
5000 5000 5000 5000 5000 5000 5000 5000 5000 5000 5000 5000 5000 5000 5000 5000 5000 5000 5000 \
5000 5000 5000 5000 5000 5000 5000 5000 5000 5000 5000 5000 = [Some(1000), Some(1000), \
Some(1000), Some(1000), Some(1000), Some(1000), Some(1000), Some(1000), Some(1000), Some(1000), \
Some(1000), Some(1000), Some(1000), Some(1000), Some(1000), Some(1000), Some(1000), Some(1000), \
Some(1000), Some(1000), Some(1000), Some(1000), Some(1000), Some(1000), Some(1000), Some(1000), \
Some(1000), Some(1000), Some(1000), Some(1000), Some(1000), Some(1000), Some(1000), Some(1000), \
Some(1000), Some(1000), Some(1000), Some(1000), Some(1000), Some(1000), Some(1000), Some(1000), \
Some(1000), Some(1000), Some(1000), Some(1000), Some(1000), Some(1000), Some(1000), Some(1000), \
Some(1000), Some(1000), Some(1000), Some(1000), Some(1000), Some(1000), Some(1000), Some(1000), \
Some(1000), Some(1000)]
short sainte-lague 0 500 0: 15000 15000 15000 15000 15000 15000 15000 15000 15000 15000 15000 \
15000 15000 15000 15000 15000 15000 15000 15000 15000 5000 5000 5000 5000 5000 5000 5000 5000 \
5000 5000 5000 5000 5000 5000 5000 5000 5000 5000 5000 5000 5000 5000 5000 5000 5000 5000 5000 \
5000 5000 5000 5000 5000 5000 5000 5000 5000 5000 5000 5000 5000 = [Some(1035), Some(1035), \
Some(1035), Some(1035), Some(1035), Some(1035), Some(1035), Some(1035), Some(1035), Some(1035), \
Some(1035), Some(1035), Some(1035), Some(1035), Some(1035), Some(1035), Some(1035), Some(1035), \
Some(1035), Some(1035), Some(690), Some(690), Some(690), Some(690), Some(690), Some(690), \
Some(690), Some(690), Some(690), Some(690), Some(690), Some(690), Some(690), Some(690), \
Some(690), Some(690), Some(690), Some(690), Some(690), Some(690), Some(690), Some(690), \
Some(690), Some(690), Some(690), Some(690), Some(690), Some(690), Some(690), Some(690), \
Some(690), Some(690), Some(690), Some(690), Some(690), Some(690), Some(690), Some(690), \
Some(690), Some(690)]
quotas hare 0 500 0: 15000 15000 15000 15000 15000 15000 15000 15000 15000 15000 15000 15000 \
15000 15000 15000 15000 15000 15000 15000 15000 5000 5000 5000 5000 5000 5000 5000 5000 5000 \
5000 5000 5000 5000 5000 5000 5000 5000 5000 5000 5000 5000 5000 5000 5000 5000 5000 5000 5000 \
5000 5000 5000 5000 5000 5000 5000 5000 5000 5000 5000 5000 = [QuotaRow { list: 1, whole: 15, \
rem: 0, extra: false }, QuotaRow { list: 2, whole: 15, rem: 0, extra: false }, QuotaRow { list: \
3, whole: 15, rem: 0, extra: false }, QuotaRow { list: 4, whole: 15, rem: 0, extra: false }, \
QuotaRow { list: 5, whole: 15, rem: 0, extra: false }, QuotaRow { list: 6, whole: 15, rem: 0, \
extra: false }, QuotaRow { list: 7, whole: 15, rem: 0, extra: false }, QuotaRow { list: 8, \
whole: 15, rem: 0, extra: false }, QuotaRow { list: 9, whole: 15, rem: 0, extra: false }, \
QuotaRow { list: 10, whole: 15, rem: 0, extra: false }, QuotaRow { list: 11, whole: 15, rem: 0, \
extra: false }, QuotaRow { list: 12, whole: 15, rem: 0, extra: false }, QuotaRow { list: 13, \
whole: 15, rem: 0, extra: false }, QuotaRow { list: 14, whole: 15, rem: 0, extra: false }, \
QuotaRow { list: 15, whole: 15, rem: 0, extra: false }, QuotaRow { list: 16, whole: 15, rem: 0, \
extra: false }, QuotaRow { list: 17, whole: 15, rem: 0, extra: false }, QuotaRow { list: 18, \
whole: 15, rem: 0, extra: false }, QuotaRow { list: 19, whole: 15, rem: 0, extra: false }, \
QuotaRow { list: 20, whole: 15, rem: 0, extra: false }, QuotaRow { list: 21, whole: 5, rem: 0, \
extra: false }, QuotaRow { list: 22, whole: 5, rem: 0, extra: false }, QuotaRow { list: 23, \
whole: 5, rem: 0, extra: false }, QuotaRow { list: 24, whole: 5, rem: 0, extra: false }, \
QuotaRow { list: 25, whole: 5, rem: 0, extra: false }, QuotaRow { list: 26, whole: 5, rem: 0, \
extra: false }, QuotaRow { list: 27, whole: 5, rem: 0, extra: false }, QuotaRow { list: 28, \
whole: 5, rem: 0, extra: false }, QuotaRow { list: 29, whole: 5, rem: 0, extra: false }, \
QuotaRow { list: 30, whole: 5, rem: 0, extra: false }, QuotaRow { list: 31, whole: 5, rem: 0, \
extra: false }, QuotaRow { list: 32, whole: 5, rem: 0, extra: false }, QuotaRow { list: 33, \
whole: 5, rem: 0, extra: false }, QuotaRow { list: 34, whole: 5, rem: 0, extra: false }, \
QuotaRow { list: 35, whole: 5, rem: 0, extra: false }, QuotaRow { list: 36, whole: 5, rem: 0, \
extra: false }, QuotaRow { list: 37, whole: 5, rem: 0, extra: false }, QuotaRow { list: 38, \
whole: 5, rem: 0, extra: false }, QuotaRow { list: 39, whole: 5, rem: 0, extra: false }, \
QuotaRow { list: 40, whole: 5, rem: 0, extra: false }, QuotaRow { list: 41, whole: 5, rem: 0, \
extra: false }, QuotaRow { list: 42, whole: 5, rem: 0, extra: false }, QuotaRow { list: 43, \
whole: 5, rem: 0, extra: false }, QuotaRow { list: 44, whole: 5, rem: 0, extra: false }, \
QuotaRow { list: 45, whole: 5, rem: 0, extra: false }, QuotaRow { list: 46, whole: 5, rem: 0, \
extra: false }, QuotaRow { list: 47, whole: 5, rem: 0, extra: false }, QuotaRow { list: 48, \
whole: 5, rem: 0, extra: false }, QuotaRow { list: 49, whole: 5, rem: 0, extra: false }, \
QuotaRow { list: 50, whole: 5, rem: 0, extra: false }, QuotaRow { list: 51, whole: 5, rem: 0, \
extra: false }, QuotaRow { list: 52, whole: 5, rem: 0, extra: false }, QuotaRow { list: 53, \
whole: 5, rem: 0, extra: false }, QuotaRow { list: 54, whole: 5, rem: 0, extra: false }, \
QuotaRow { list: 55, whole: 5, rem: 0, extra: false }, QuotaRow { list: 56, whole: 5, rem: 0, \
extra: false }, QuotaRow { list: 57, whole: 5, rem: 0, extra: false }, QuotaRow { list: 58, \
whole: 5, rem: 0, extra: false }, QuotaRow { list: 59, whole: 5, rem: 0, extra: false }, \
QuotaRow { list: 60, whole: 5, rem: 0, extra: false }]";

// The last of three seats is in question between two lists of 100 votes, and the last of four
// between three, all of which a lot has to name; the one seat between two of 50 votes.
const LOTS: &str = "\
need dhondt 0 3 0: 100 100 = lot of 1 2 for 1
allot dhondt 0 3 0: 100 100 = a lot is needed and none is given: lot of 1 2 for 1
allot dhondt 0 3 0: 100 100: 2 1 = [1, 2]
allot dhondt 0 3 0: 100 100: 1 = the lot is not the one to be taken
allot dhondt 0 4 0: 100 100: 2 1 = the lot is not the one to be taken
awards dhondt 0 3 0: 100 100 = a lot is needed and none is given: lot of 1 2 for 1
awards dhondt 0 3 0: 100 100: 1 = the lot is not the one to be taken
awards dhondt 0 3 0: 100 100: 2 1 = \
[Award { list: 2, k: 1, num: 100, den: 1 }, Award { list: 1, k: 1, num: 100, den: 1 }, \
Award { list: 2, k: 2, num: 100, den: 2 }]
need dhondt 0 4 0: 100 100 100 = lot of 1 2 3 for 1
allot dhondt 0 4 0: 100 100 100: 3 1 = the lot is not the one to be taken
allot dhondt 0 4 0: 100 100 100: 3 1 2 = [1, 1, 2]
right 1 1 2: dhondt 0 4 0: 100 100 100: 3 1 2
wrong 2 1 1: dhondt 0 4 0: 100 100 100: 3 1 2
wrong 2 1 1: dhondt 0 4 0: 100 100 100
need hare 0 1 0: 50 50 = lot of 1 2 for 1
allot hare 0 1 0: 50 50 = a lot is needed and none is given: lot of 1 2 for 1
quotas hare 0 1 0: 50 50 = a lot is needed and none is given: lot of 1 2 for 1
quotas hare 0 1 0: 50 50: 1 = the lot is not the one to be taken
quotas hare 0 1 0: 50 50: 2 1 = \
[QuotaRow { list: 1, whole: 0, rem: 50, extra: false }, QuotaRow { list: 2, whole: 0, rem: 50, extra: true }]";

// The order of the lot is turned round for the second seat of each list, and not for the first.
// Hare's rule reads it as fixed. Of 11 seats of two equal lists the last is a sixth seat, of 13 a
// seventh. Of 60 equal lists each has 8 of 500 seats, and 20 seats are left for a ninth; of 55 each
// has 9, and 5 are left for a tenth.
const ALTERNATING: &str = "\
allot dhondt/alternating 0 3 0: 100 100 = a lot is needed and none is given: lot of 1 2 for 1
allot dhondt/alternating 0 3 0: 100 100: 2 1 = [2, 1]
right 2 1: dhondt/alternating 0 3 0: 100 100: 2 1
wrong 1 2: dhondt/alternating 0 3 0: 100 100: 2 1
awards dhondt/alternating 0 3 0: 100 100: 2 1 = \
[Award { list: 2, k: 1, num: 100, den: 1 }, Award { list: 1, k: 1, num: 100, den: 1 }, \
Award { list: 1, k: 2, num: 100, den: 2 }]
awards dhondt/alternating 0 3 0: 100 100 = a lot is needed and none is given: lot of 1 2 for 1
allot dhondt/alternating 0 1 0: 100 100: 2 1 = [0, 1]
allot dhondt/alternating 0 4 0: 100 100 100: 3 1 2 = [1, 2, 1]
allot dhondt/alternating 0 4 0: 100 100 100: 3 1 = the lot is not the one to be taken
wrong 1 2 1: dhondt/alternating 0 4 0: 100 100 100: 3 1
allot hare/alternating 0 3 0: 50 50: 2 1 = [1, 2]
allot dhondt/alternating 0 11 0: 100 100: 2 1 = [6, 5]
allot dhondt/alternating 0 13 0: 100 100: 2 1 = [6, 7]
allot dhondt/alternating 0 500 0: 100 100 100 100 100 100 100 100 100 100 100 100 100 100 100 \
100 100 100 100 100 100 100 100 100 100 100 100 100 100 100 100 100 100 100 100 100 100 100 \
100 100 100 100 100 100 100 100 100 100 100 100 100 100 100 100 100 100 100 100 100 100: 60 \
59 58 57 56 55 54 53 52 51 50 49 48 47 46 45 44 43 42 41 40 39 38 37 36 35 34 33 32 31 30 29 \
28 27 26 25 24 23 22 21 20 19 18 17 16 15 14 13 12 11 10 9 8 7 6 5 4 3 2 1 = [8, 8, 8, 8, 8, \
8, 8, 8, 8, 8, 8, 8, 8, 8, 8, 8, 8, 8, 8, 8, 8, 8, 8, 8, 8, 8, 8, 8, 8, 8, 8, 8, 8, 8, 8, 8, \
8, 8, 8, 8, 9, 9, 9, 9, 9, 9, 9, 9, 9, 9, 9, 9, 9, 9, 9, 9, 9, 9, 9, 9]
allot modified-sainte-lague/alternating 0 500 0: 100 100 100 100 100 100 100 100 100 100 100 \
100 100 100 100 100 100 100 100 100 100 100 100 100 100 100 100 100 100 100 100 100 100 100 \
100 100 100 100 100 100 100 100 100 100 100 100 100 100 100 100 100 100 100 100 100: 55 54 53 \
52 51 50 49 48 47 46 45 44 43 42 41 40 39 38 37 36 35 34 33 32 31 30 29 28 27 26 25 24 23 22 \
21 20 19 18 17 16 15 14 13 12 11 10 9 8 7 6 5 4 3 2 1 = [10, 10, 10, 10, 10, 9, 9, 9, 9, 9, \
9, 9, 9, 9, 9, 9, 9, 9, 9, 9, 9, 9, 9, 9, 9, 9, 9, 9, 9, 9, 9, 9, 9, 9, 9, 9, 9, 9, 9, 9, 9, \
9, 9, 9, 9, 9, 9, 9, 9, 9, 9, 9, 9, 9, 9]
allot sainte-lague 0 500 0: 100 100 100 100 100 100 100 100 100 100 100 100 100 100 100 100 \
100 100 100 100 100 100 100 100 100 100 100 100 100 100 100 100 100 100 100 100 100 100 100 \
100 100 100 100 100 100 100 100 100 100 100 100 100 100 100 100: 55 54 53 52 51 50 49 48 47 \
46 45 44 43 42 41 40 39 38 37 36 35 34 33 32 31 30 29 28 27 26 25 24 23 22 21 20 19 18 17 16 \
15 14 13 12 11 10 9 8 7 6 5 4 3 2 1 = [9, 9, 9, 9, 9, 9, 9, 9, 9, 9, 9, 9, 9, 9, 9, 9, 9, 9, \
9, 9, 9, 9, 9, 9, 9, 9, 9, 9, 9, 9, 9, 9, 9, 9, 9, 9, 9, 9, 9, 9, 9, 9, 9, 9, 9, 9, 9, 9, 9, \
9, 10, 10, 10, 10, 10]";

// The example of LOREG, article 163. The lowest seat is A's fourth, with 168,000 / 4 = 42,000: E
// and F need 42,001 votes, since with 42,000 they only tie and A has more; C and D need 84,001 for
// a second seat, and B 126,001 for a third. For A the lowest seat of another list is B's second,
// with 52,000: a fifth takes 5 * 52,000 votes, which are more than B has. Then 200 against 100
// and two seats: with 101 B is ahead of A's second. Equal votes, and a lot for one of three seats.
// By Sainte-Laguë A's second seat takes 3 * 24 votes, B's 3 * 53, and C's first 25; by the modified
// rule B and C need 25 votes for a first, since 7 * 53 / 15 is 24.7. Where lots alternate A has the
// second seat and the third of three, and needs 300 for all of them. Last a list below the
// threshold, and great numbers: 4,999,999,999 / 5 is below 1,000,000,000.
const SHORT: &str = "\
short dhondt 300 8 0: 168000 104000 72000 64000 40000 32000 = \
[Some(92000), Some(22001), Some(12001), Some(20001), Some(2001), Some(10001)]
short dhondt 0 2 0: 200 100 = [None, Some(1)]
short dhondt 0 3 0: 100 100: 2 1 = [Some(1), Some(200)]
short dhondt 0 3 0: 100 100 = a lot is needed and none is given: lot of 1 2 for 1
short dhondt 0 3 0: 100 100: 1 = the lot is not the one to be taken
short dhondt 0 2 0: 200 100: 1 2 = the lot is not the one to be taken
short dhondt 0 3 50: 0 0 = no list is eligible
short sainte-lague 0 2 0: 53 24 23 = [Some(19), Some(135), Some(2)]
short modified-sainte-lague 0 2 0: 53 24 23 = [None, Some(1), Some(2)]
short dhondt/alternating 0 3 0: 100 100: 2 1 = [Some(200), Some(1)]
short dhondt 3000 2 0: 60 30 10 = [None, Some(1), None]
short sainte-lague 0 3 0: 4999999999 1 = [None, Some(999999999)]
short sainte-lague 0 2 0: 2500000000 2500000000 = [Some(5000000000), Some(5000000000)]";

// What each list has in any case. Of three seats two equal lists have one each, and of four three
// have one each. A's third quotient, 300 / 3, ties with the firsts of B and C and has more votes,
// so only the fourth seat is open; and where the votes decide, these are the seats. By Hare no list
// of three has a whole quota of two seats; A's 200 of 400 are two of four seats, and of the others
// each has one.
const LEAST: &str = "\
least dhondt 0 3 0: 100 100 = [1, 1]
least dhondt/alternating 0 3 0: 100 100 = [1, 1]
least dhondt 0 4 0: 100 100 100 = [1, 1, 1]
least dhondt 0 4 0: 300 100 100 = [3, 0, 0]
least dhondt 0 2 0: 200 100 = [2, 0]
least sainte-lague 0 2 0: 50 100 50 = [0, 1, 0]
least dhondt 300 8 0: 168000 104000 72000 64000 40000 32000 = [4, 2, 1, 1, 0, 0]
least hare 0 2 0: 50 50 50 = [0, 0, 0]
least hare 0 4 0: 200 100 100 = [2, 1, 1]
least dhondt 0 3 50: 0 0 = no list is eligible";

#[test]
fn worked_allotments(rt: HostRuntime) -> Result<(), Fail> {
    for table in [
        LOREG,
        DECIDED,
        FIRST_DIVISOR,
        PROPORTIONS,
        LOTS,
        ALTERNATING,
        SHORT,
        LEAST,
    ] {
        for line in table.lines() {
            assert!(rt; holds(rt.alloc(), line)?, "{line}");
        }
    }
    Ok(())
}
