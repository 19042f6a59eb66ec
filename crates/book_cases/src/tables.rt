// The scripts.
use crate::script;

// F and G: ports, rule, intervals, number.
pub fn fresh_starts() {
    let table = b"\
        F 1 a 64 64 0;F 8 a 64 64 0;\
        F 0 a 64 64 14;F 9 a 64 64 14;F F a 64 64 14;\
        F 2 e 64 64 0;F 2 i 64 64 0;F 2 I 64 64 0;F 2 l 64 64 0;F 2 s 64 64 0;F 2 w 64 64 0;F 2 r 64 64 0;\
        F 2 t 64 64 14;F 2 J 64 64 14;F 0 t 64 64 14;F 9 t 0 0 14;\
        G 1 a 1 0 14;G 1 a 1 1 0;G 1 a 1 2 0;\
        G 1 a 1 FFFFFFFFFFFFFFF 0;G 1 a 1 1000000000000000 14;G 1 a 1 FFFFFFFFFFFFFFFF 14;\
        G 8 s 1 0 14;G 8 s 1 1 0;G 8 s 1 FFFFFFFFFFFFFFF 0;G 8 s 1 1000000000000000 14;\
        G 8 s 2 0 14;G 8 s 2 1 0;G 8 s 2 FFFFFFFFFFFFFFF 0;G 8 s 2 1000000000000000 14;\
        G 8 s 7 0 14;G 8 s 7 1 0;G 8 s 7 FFFFFFFFFFFFFFF 0;G 8 s 7 1000000000000000 14;\
        G 8 s 8 0 14;G 8 s 8 1 0;G 8 s 8 FFFFFFFFFFFFFFF 0;G 8 s 8 1000000000000000 14;\
        F 8 l FFFFFFFFFFFFFFF 1 0;R 8 A g 1 0 0 0;R 1 B g 1 0 0 0;\
        F 9 a 64 64 14;F 2 t 64 64 14;G 2 a 2 0 14;H 1 B1;H 8 A1;\
        F 2 a 64 64 0;H 1;H 2;F 2 a 64 64 0;F 1 a 64 64 0;";
    script::run(b"fresh starts", table);
}

pub fn registrations() {
    ports_and_frames();
    own_and_acceptable();
    full_ports();
}

// R: port, sender, frame, sequence, steps, number, evicted. 6, then the frame, then 7, 9, 10, 11.
fn ports_and_frames() {
    let table = b"\
        F 2 a 64 64 0;\
        R 0 A g 0 0 6;R 3 A g 0 0 6;R 8 A g 0 0 6;R 9 A g 0 0 6;R 100 A g 0 0 6;R 101 A g 0 0 6;R FFFF A g 0 0 6;\
        R 0 A 0 0 0 6;R 3 A 1 0 0 6;R 0 A 2 0 0 6;R 3 A 3 0 0 6;R 0 A 4 0 0 6;R 3 A 5 0 0 6;\
        R 0 o g 0 0 6;R 3 p g 0 FF 6;\
        R 1 o 0 0 0 1;R 1 o 1 0 0 1;R 1 o 2 0 0 2;R 1 o 3 0 0 3;R 1 o 4 0 0 4;R 1 o 5 0 0 5;\
        R 2 o 0 0 FF 1;R 2 o 2 0 FF 2;R 2 o 3 0 FF 3;R 2 o 4 0 FF 4;R 2 o 5 0 FF 5;\
        R 1 o g 0 0 7;R 2 p g 0 0 7;R 1 o g 0 FF 7;\
        R 2 o g 0 0 9;R 1 p g 0 0 9;R 1 q g 0 0 9;R 2 q g 0 0 9;R 1 p g 0 FF 9;\
        H 1;H 2;\
        R 1 x g 0 0 0 0;R 1 y g 0 0 0 0;R 2 x g 9 0 0 0;R 1 A T 5 0 0 0;\
        R 1 A 1 4 0 1;R 1 A 2 4 FF 2;R 1 A 5 4 FF 5;R 1 A 4 6 0 4;\
        R 1 A g 4 0 10;R 1 A g 4 FF 10;R 1 A g 5 FF 11;R 1 A g 6 FF 11;\
        R 1 A L 6 FE 0 0;R 1 A g 6 0 0 0;\
        H 1 x1 y1 A3;H 2 x1;M 1 2 0 5 0;M 1 2 1 6 0;M 1 2 2 6 0;M 2 0 0 9 0;\
        F 8 a 64 64 0;R 8 A g 0 0 0 0;R 9 A g 0 0 6;R 108 A g 0 0 6;R 0 A g 0 0 6;H 8 A1;\
        F 1 a 64 64 0;R 1 A g 0 0 0 0;R 2 A g 0 0 6;R 0 A g 0 0 6;";
    script::run(b"ports, frames and their order", table);
}

// 7, then 8, then 9, then 11, under each rule.
fn own_and_acceptable() {
    let table = b"\
        F 2 l 64 64 0;\
        R 1 o g 0 0 7;R 2 p g 0 FF 7;R 1 p g 0 0 8;R 2 o g 0 0 8;R 1 q g 0 0 8;R 1 p g 0 FF 8;\
        R 1 I g 0 0 8;R 1 I g 0 FF 8;R 1 I 5 0 0 5;R 0 I g 0 0 6;R 1 x g 0 0 8;R 1 y g 0 0 8;\
        R 1 A g 0 0 0 0;R 1 a g 0 0 0 0;R 1 H g 0 0 0 0;R 2 H g 0 FF 11;H 1 A1 a1 H1;H 2;\
        F 2 w 64 64 0;\
        R 1 o g 0 0 7;R 1 p g 0 0 9;R 1 q g 0 0 9;R 1 p g 0 FF 9;R 1 A g 0 0 0 0;R 1 B g 0 0 8;R 1 o g 0 FF 7;\
        F 2 e 64 64 0;\
        R 1 A g 0 0 8;R 2 A g 0 FF 8;R 1 o g 0 0 7;R 1 p g 0 0 8;\
        F 2 i 64 64 0;\
        R 1 A g 0 0 0 0;R 1 B g 0 0 0 0;R 1 p g 0 0 9;R 1 o g 0 0 7;\
        F 2 r 64 64 0;\
        R 1 A g 0 0 0 0;R 1 B g 0 0 0 0;R 1 C g 0 0 8;\
        F 2 s 64 64 0;\
        R 1 A g 0 0 0 0;R 1 P g 0 0 0 0;R 1 Q g 0 0 8;R 2 P g 0 FE 0 0;R 2 O g 0 FF 11;";
    script::run(b"own clock and acceptable senders", table);
}

// 7, 8, 9, 10 and 11 before 12. E: eight senders, one message each.
fn full_ports() {
    let table = b"\
        F 2 s 64 64 0;E 1 A 7;R 1 H g 0 FF 11;R 1 H g 0 FE 0 0;\
        H 1 A1 B1 C1 D1 E1 F1 G1 H1;\
        R 1 I g 0 0 12;R 1 I g 0 FE 12;R 1 I g 0 FF 11;R 1 I g 0 FFFF 11;R 1 I g FFFF 0 12;R 1 a g 0 0 12;\
        R 1 Q g 0 0 8;R 1 p g 0 0 8;R 1 o g 0 0 7;R 1 I 5 0 0 5;R 3 I g 0 0 6;\
        R 1 A g FFFF 0 10;R 1 H g FFFF FF 10;R 1 D g 7FFF 0 10;R 1 D g 0 FF 11;\
        R 1 A g 0 0 0 0;R 1 H g 7FFE FE 0 0;R 1 D g 1 0 0 0;\
        H 1 A2 B1 C1 D2 E1 F1 G1 H2;H 2;\
        R 2 I g 0 0 0 0;H 2 I1;R 1 I g 1 0 12;R 2 I g 1 0 0 0;H 2 I2;\
        E 2 A 7;R 2 H g 0 0 12;R 2 I g FFFF 0 10;H 2 I2 A1 B1 C1 D1 E1 F1 G1;\
        F 1 a 64 64 0;E 1 A 8;R 1 I g 0 0 12;R 1 p g 0 0 9;R 1 p g 0 FF 9;R 1 o g 0 0 7;R 1 x g 0 0 12;\
        H 1 A1 B1 C1 D1 E1 F1 G1 H1;M 1 0 0 0 0;M 1 7 0 0 0;";
    script::run(b"full ports", table);
}

pub fn lists() {
    rings();
    ports_apart();
}

// S: so many messages in a row. The ninth puts out the first, and the order stays.
fn rings() {
    let table = b"\
        F 1 a 64 64 0;S 1 A 0 7;H 1 A7;R 1 A g 7 0 0 0;H 1 A8;\
        M 1 0 0 0 0;M 1 0 1 1 0;M 1 0 6 6 0;M 1 0 7 7 0;\
        R 1 A g 6 0 10;R 1 A g 8 FF 11;R 1 A g 8 0 0 1;H 1 A8;\
        M 1 0 0 1 0;M 1 0 1 2 0;M 1 0 2 3 0;M 1 0 3 4 0;M 1 0 4 5 0;M 1 0 5 6 0;M 1 0 6 7 0;M 1 0 7 8 0;\
        R 1 A g 7 0 10;R 1 A g 9 0 0 1;M 1 0 0 2 0;M 1 0 6 8 0;M 1 0 7 9 0;\
        R 1 A g A 0 0 1;R 1 A g B 0 0 1;R 1 A g C 0 0 1;R 1 A g D 0 0 1;R 1 A g E 0 0 1;R 1 A g F 0 0 1;\
        M 1 0 0 8 0;M 1 0 7 F 0;R 1 A g 10 0 0 1;M 1 0 0 9 0;M 1 0 1 A 0;M 1 0 7 10 0;R 1 A g 11 0 0 1;\
        M 1 0 0 A 0;M 1 0 7 11 0;H 1 A8;\
        R 1 B g 5 0 0 0;R 1 C g 5 0 0 0;R 1 C g 6 0 0 0;H 1 A8 B1 C2;R 1 A g 12 0 0 1;H 1 A8 B1 C2;\
        M 1 1 0 5 0;M 1 2 1 6 0;M 1 0 7 12 0;\
        F 1 a 64 64 0;S 1 A FFFC 8;M 1 0 3 FFFF 0;M 1 0 4 0 0;M 1 0 7 3 0;R 1 A g 4 0 0 1;M 1 0 0 FFFD 0;\
        F 1 a 64 64 0;R 1 A g 0 0 0 0;R 1 A g 7FFE 0 0 0;R 1 A g FFFC 0 0 0;R 1 A g 7FFA 0 0 0;H 1 A4;\
        R 1 A g 7FF9 0 10;R 1 A g FFF9 0 10;R 1 A g FFF8 0 0 0;M 1 0 2 FFFC 0;M 1 0 4 FFF8 0;";
    script::run(b"rings", table);
}

// The same sender at several ports, and senders of one clock.
fn ports_apart() {
    let table = b"\
        F 3 a 64 64 0;R 1 A g 5 0 0 0;R 2 A g 9 0 0 0;R 3 A g 1 0 0 0;\
        R 2 A g 5 0 10;R 2 A g 6 0 10;R 1 A g 6 0 0 0;R 3 A g 0 0 10;R 3 A g 1 0 0 0;\
        H 1 A2;H 2 A1;H 3 A2;M 1 0 1 6 0;M 2 0 0 9 0;M 3 0 1 1 0;\
        R 1 a g 0 0 0 0;R 1 A g 5 0 10;R 1 a g 7FFF 0 10;R 1 a g 7FFE 0 0 0;H 1 A2 a2;H 2 A1;\
        R 2 B g 1 0 0 0;R 2 b g 1 0 0 0;R 2 a g 1 0 0 0;H 2 A1 B1 b1 a1;H 3 A2;\
        F 8 a 64 64 0;E 1 A 8;E 8 A 8;R 7 I g 0 0 0 0;R 2 I g 0 0 0 0;R 8 I g 0 0 12;R 1 I g 0 0 12;\
        H 2 I1;H 7 I1;H 3;H 4;H 5;H 6;S 7 I 1 7;R 7 I g 8 0 0 1;H 7 I8;H 8 A1 B1 C1 D1 E1 F1 G1 H1;";
    script::run(b"ports apart", table);
}

// A: step, number, how many aged out.
pub fn ages() {
    limits();
    leaving();
}

fn limits() {
    let table = b"\
        F 1 a 1 1 0;A 0 0 0;A 3FFFFFFFFFFFFFFF 0 0;A 4000000000000000 13;\
        R 1 A g 0 0 0 0;A 3 0 0;M 1 0 0 0 3;H 1 A1;A 0 0 0;M 1 0 0 0 3;A 1 0 1;H 1;\
        R 1 A g 0 0 0 0;A 1 0 0;M 1 0 0 0 1;A 2 0 0;M 1 0 0 0 3;A 4000000000000000 13;A 8000000000000000 13;\
        A FFFFFFFFFFFFFFFF 13;A 4000000000000001 13;M 1 0 0 0 3;H 1 A1;A 3FFFFFFFFFFFFFFF 0 1;H 1;\
        R 1 A g 9 0 0 0;A 4 0 1;H 1;R 1 A g 8 0 0 0;A 5 0 1;R 1 A g 7 0 0 0;H 1 A1;M 1 0 0 7 0;\
        F 1 a FFFFFFFFFFFFFFF 1 0;R 1 A g 0 0 0 0;A 3FFFFFFFFFFFFFFB 0 0;M 1 0 0 0 3FFFFFFFFFFFFFFB;A 0 0 0;H 1 A1;A 1 0 1;H 1;\
        R 1 A g 0 0 0 0;A 3FFFFFFFFFFFFFFC 0 1;H 1;R 1 A g 0 0 0 0;A 3FFFFFFFFFFFFFFF 0 1;H 1;\
        R 1 A g 0 0 0 0;A 3FFFFFFFFFFFFFFB 0 0;R 1 A g 1 0 0 0;A 3FFFFFFFFFFFFFFF 0 2;H 1;\
        R 1 A g 0 0 0 0;A 3FFFFFFFFFFFFFFA 0 0;R 1 A g 1 0 0 0;A 1 0 0;H 1 A2;A 4000000000000000 13;A 1 0 1;H 1 A1;M 1 0 0 1 2;\
        F 2 a 1 2 0;R 1 A g 0 0 0 0;R 2 A g 0 0 0 0;A 3 0 0;H 1 A1;A 1 0 1;H 1;H 2 A1;A 3 0 0;M 2 0 0 0 7;A 1 0 1;H 2;\
        F 2 a 2 1 0;R 1 A g 0 0 0 0;R 2 A g 0 0 0 0;R 2 B g 0 0 0 0;A 4 0 2;H 1 A1;H 2;M 1 0 0 0 4;A 4 0 1;H 1;";
    script::run(b"limits of age", table);
}

// Fronts of rings that have wrapped, masters that leave and room that is used again.
fn leaving() {
    let table = b"\
        F 1 a A A 0;S 1 A 0 1;A 1 0 0;S 1 A 1 1;A 1 0 0;S 1 A 2 1;A 1 0 0;S 1 A 3 1;A 1 0 0;S 1 A 4 1;A 1 0 0;\
        S 1 A 5 1;A 1 0 0;S 1 A 6 1;A 1 0 0;S 1 A 7 1;A 1 0 0;R 1 A g 8 0 0 1;A 1 0 0;R 1 A g 9 0 0 1;H 1 A8;\
        M 1 0 0 2 7;M 1 0 1 3 6;M 1 0 5 7 2;M 1 0 6 8 1;M 1 0 7 9 0;A 20 0 0;M 1 0 0 2 27;M 1 0 7 9 20;\
        A 1 0 1;H 1 A7;M 1 0 0 3 27;M 1 0 6 9 21;A 3 0 3;H 1 A4;M 1 0 0 6 27;M 1 0 1 7 26;M 1 0 3 9 24;\
        R 1 A g A 0 0 0;R 1 A g 8 0 10;S 1 A B 3;H 1 A8;R 1 A g E 0 0 1;H 1 A8;M 1 0 0 7 26;M 1 0 7 E 0;\
        A 2 0 1;H 1 A7;M 1 0 0 8 27;A 2 0 2;H 1 A5;M 1 0 0 A 4;M 1 0 4 E 4;A 23 0 0;A 1 0 5;H 1;\
        F 2 a A A 0;E 1 A 4;A 14 0 0;R 1 B g 1 0 0 0;R 1 D g 1 0 0 0;H 1 A1 B2 C1 D2;A 14 0 4;H 1 B1 D1;\
        M 1 0 0 1 14;M 1 1 0 1 14;R 1 E g 3 0 0 0;R 1 A g 2 0 0 0;H 1 B1 D1 E1 A1;R 1 D g 0 0 10;R 1 B g 2 0 0 0;\
        A 14 0 2;H 1 B1 E1 A1;M 1 0 0 2 14;M 1 1 0 3 14;M 1 2 0 2 14;A 14 0 3;H 1;\
        F 2 a A A 0;E 1 A 8;E 2 A 8;A 27 0 0;R 1 A g 1 0 0 0;R 1 B g 1 0 0 0;R 1 D g 1 0 0 0;R 1 E g 1 0 0 0;\
        R 1 G g 1 0 0 0;R 1 H g 1 0 0 0;R 2 H g 1 0 0 0;R 1 I g 0 0 12;A 1 0 16;H 1 A1 B1 D1 E1 G1 H1;H 2 H1;\
        R 1 I g 0 0 0 0;R 1 C g 0 0 0 0;R 1 F g 0 0 12;H 1 A1 B1 D1 E1 G1 H1 I1 C1;M 1 5 0 1 1;M 1 6 0 0 0;\
        E 2 A 7;R 2 I g 0 0 12;H 2 H1 A1 B1 C1 D1 E1 F1 G1;A 27 0 7;H 1 I1 C1;H 2 A1 B1 C1 D1 E1 F1 G1;A 1 0 9;H 1;H 2;";
    script::run(b"masters that leave", table);
}
