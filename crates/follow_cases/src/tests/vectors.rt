//! Roots, frames and tapes in hexadecimal digits, as vectors/cases.py prints them.

/// The root of the log of four accounts.
pub(super) const ROOT_FOUR: &str =
    "306cc63dc2a06596f4ca7dedb5dcce8d87eb57bb29020a298a998eb02127ebe2";

/// Its root after a payment of 1 from the first account to the second.
pub(super) const ROOT_PAID: &str =
    "004e0db3db3546ce67b4525190cd7bcedbe1a783e3f084ab2ca48a17c888916b";

/// Its root after the same changes and a commit that keeps the floor.
pub(super) const ROOT_NINE: &str =
    "bd2fa25c9ba83324641f294c30f7b35851c262b3a0862ea4177f9222cc73856a";

/// The root of a log of three accounts after the third paid a new one.
pub(super) const ROOT_TWO_MOVED: &str =
    "7abecf630fd3b259d3bc976b4c525a1cefe24bc966c996051803778cbecd92b5";

/// The root of a log of four accounts after the last one paid itself.
pub(super) const ROOT_ONE_MOVED: &str =
    "b089b81de27a8b55ba3380873d8128633fb67979e6be90e08f97555466f9c75f";

/// The root of a log of one account after an empty block.
pub(super) const ROOT_NONE_MOVED: &str =
    "2220a0f92452e58352c0103aa9a41b04273a162f6c8967541e9f6fd8f8a3b493";

/// The root of the log of twelve commits.
pub(super) const ROOT_TWELVE: &str =
    "d3d24dd8678583baadc9a5e737c8e44103c4a1af6a1d05f0e493fbc44dd81a6f";

/// Its root where the first byte of the second peak below 5 is another.
pub(super) const ROOT_ALTERED: &str =
    "d1e16cf5d2714d6b962737bf37ca0a43883e88a2be339a4e316b22e5e120a4a4";

/// The root of the first three operations of the log of two accounts.
pub(super) const ROOT_CUT: &str =
    "110ca94d2fda6a2e85545a703da2f777f0c710f24bf8ff43ffd6fe014413d68c";

/// The root of the log whose first Update is no account.
pub(super) const ROOT_ONES: &str =
    "20bc658326b2673535b9829832ea0e7caa0ad3ac843badb2fa6dc8862864b696";

/// The root of the log of 300 operations.
pub(super) const ROOT_LONG: &str =
    "e030fd237bdab2f1f25c8aba626e11a701014e19be1354cb3f42356fdc23bacd";

/// The root of the log that ends at 2^62.
pub(super) const ROOT_LAST: &str =
    "95fb0072790ad06b0cc3b4fba5c4245bd4ece13fbdada080bba41c49382d5483";

/// The root of the log that ends before 2^62.
pub(super) const ROOT_BEFORE: &str =
    "2832dd983419e6ee11de1ca2284ee78604424f2fa601cc162e567772300ce647";

/// Its root after one more commit.
pub(super) const ROOT_END: &str =
    "2bdcde7c2165791c2c3229d389b012bea9b2b328c71e1bceca68f2afab25e10f";

/// The framed answer 1 of the log of twelve, from 5 to 8.
pub(super) const FIRST: &str =
    "b8010100000000000000010c00034c8ab9e32f6b1bf2f0e86420bf5bfa50470cb4f191c9f4e36d67cce52ae55eefe7ee7feb5dd3d129271682ebe915b57d746121674beb2c92a28364451ffd860a2e7be7327fc5c982baec01b14078d72856bc6c6ed312a4e56a08276f774044910302000502000502000501024c8ab9e32f6b1bf2f0e86420bf5bfa50470cb4f191c9f4e36d67cce52ae55eefe7ee7feb5dd3d129271682ebe915b57d746121674beb2c92a28364451ffd860a";

/// The framed answer 2 of the log of twelve, from 8 to 11.
pub(super) const SECOND: &str =
    "570100000000000000020c000253d5044dd1804c35811c6ccfbb966644a2974a1649f6f7d4dcd6806fd6e35215f98cc03836242c5c63b98e14298f6b6f1e4cb640d5d4591b8d94e2bfc9400cb50302000502000502000500";

/// The framed answer 3 of the log of twelve, from 11 to 12.
pub(super) const THIRD: &str =
    "710100000000000000030c000353d5044dd1804c35811c6ccfbb966644a2974a1649f6f7d4dcd6806fd6e352154c2509f232c052d5bd4f08a3d7ea431597caced8512cc600ec6e5f45432d22e9d76e231e166bc64d96e73952dcfdce0240b38ad732056c525f867fb64f4530060102000500";

/// The framed answer 1 of the log of twelve, from 5 to 9.
pub(super) const MANY: &str =
    "db010100000000000000010c00044c8ab9e32f6b1bf2f0e86420bf5bfa50470cb4f191c9f4e36d67cce52ae55eefe7ee7feb5dd3d129271682ebe915b57d746121674beb2c92a28364451ffd860a052588b820667cb2a4b11fdce9d58f9f071a264f6b9a4422c72df524924e5826f84b679f0d8169813c915b0883ac7c11b7f175131448a4846548a8deabb0bf740402000502000502000502000501024c8ab9e32f6b1bf2f0e86420bf5bfa50470cb4f191c9f4e36d67cce52ae55eefe7ee7feb5dd3d129271682ebe915b57d746121674beb2c92a28364451ffd860a";

/// The framed target of the log of twelve from 5 on, as answer 1.
pub(super) const TARGET: &str =
    "2b030000000000000001d3d24dd8678583baadc9a5e737c8e44103c4a1af6a1d05f0e493fbc44dd81a6f050c";

/// The asks of a log of 300, one at a time.
pub(super) const ONE_BY_ONE: &str =
    "15000000000000000001ac020000000000000000fa0115000000000000000002ac026400000000000000960016000000000000000003ac02c80100000000000000320016000000000000000004ac02fa01000000000000003200";

/// The asks of a log of 300, two at a time.
pub(super) const TWO_AT_ONCE: &str =
    "15000000000000000001ac020000000000000000fa0116000000000000000002ac02fa0100000000000000320015000000000000000003ac026400000000000000960016000000000000000004ac02c801000000000000003200";

/// The asks one at a time, where the end is 9 from the second answer on.
pub(super) const RISEN_ONE: &str =
    "140000000000000000010600000000000000000201140000000000000000020602000000000000000200140000000000000000030904000000000000000200140000000000000000040906000000000000000200140000000000000000050908000000000000000100";

/// The asks three at a time.
pub(super) const RISEN_THREE: &str =
    "140000000000000000010600000000000000000201140000000000000000020602000000000000000200140000000000000000030604000000000000000200140000000000000000040906000000000000000200140000000000000000050908000000000000000100";
