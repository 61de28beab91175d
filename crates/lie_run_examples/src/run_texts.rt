// Runs of linear systems, from a model that was written apart. The first line of a text has the names of the variables, and then the
// unknowns, the equations, the general forms and the next number of the first state; each further line has the rule of a step, and the
// state that it leaves.

/// The determining systems of some equations.
pub const DETERMINING: [&[u8]; 7] = [
    // Exponential growth, u_x = u, of which no rule applies.
    b"xu|1xu 2xu|f2_x u*f2_u -u*f1_x -uu*f1_u -f2|f1;f2|3",
    // Straight lines, y_xx = 0.
    b"xy|1xy 2xy|f1_yy;f2_xx;f2_yy -2*f1_xy;2*f2_xy -f1_xx|f1;f2|3\n\
    Absent|2xy 3x 4x|f2_xx;f2_yy -2*f4_x;y*f4_xx f3_xx -2*f2_xy|y*f4 f3;f2|5\n\
    Absent|3x 4x 5y 6y|y*f4_xx f3_xx -2*f6_y;x*f6_yy f5_yy -2*f4_x|y*f4 f3;x*f6 f5|7\n\
    Isolate|3x 4x 5y 6y|f3_xxx;y*f4_xx f3_xx -2*f6_y;x*f6_yy f5_yy -2*f4_x|y*f4 f3;x*f6 f5|7\n\
    Absent|4x 5y 6y 7 8 9|y*f4_xx -2*f6_y 2*f9;x*f6_yy f5_yy -2*f4_x|xx*f9 x*f8 f7 y*f4;x*f6 f5|10\n\
    Isolate|4x 5y 6y 7 8 9|f4_xxx;y*f4_xx -2*f6_y 2*f9;x*f6_yy f5_yy -2*f4_x|xx*f9 x*f8 f7 y*f4;x*f6 f5|10\n\
    Absent|5y 6y 7 8 9 10 11 12|f6_y -y*f12 -f9;x*f6_yy f5_yy -4*x*f12 -2*f11|xxy*f12 xy*f11 y*f10 xx*f9 x*f8 \
    f7;x*f6 f5|13\n\
    Split|5y 6y 7 8 9 10 11 12|f5_yy -2*f11;f6_yy -4*f12;f6_y -y*f12 -f9|xxy*f12 xy*f11 y*f10 xx*f9 x*f8 f7;\
    x*f6 f5|13\n\
    Integrate|6y 7 8 9 10 11 12 13 14|f6_yy -4*f12;f6_y -y*f12 -f9|xxy*f12 xy*f11 y*f10 xx*f9 x*f8 f7;y*f14 f13 \
    yy*f11 x*f6|15\n\
    Integrate|7 8 9 10 11 12 13 14 15 16|f16 3*y*f12 -f9|xxy*f12 xy*f11 y*f10 xx*f9 x*f8 f7;xy*f16 x*f15 y*f14 \
    f13 2*xyy*f12 yy*f11|17\n\
    Split|7 8 9 10 11 12 13 14 15 16|f12;f16 -f9|xxy*f12 xy*f11 y*f10 xx*f9 x*f8 f7;xy*f16 x*f15 y*f14 f13 \
    2*xyy*f12 yy*f11|17\n\
    Zero|7 8 9 10 11 13 14 15 16|f16 -f9|xy*f11 y*f10 xx*f9 x*f8 f7;xy*f16 x*f15 y*f14 f13 yy*f11|17\n\
    Substitute|7 8 9 10 11 13 14 15||xy*f11 y*f10 xx*f9 x*f8 f7;x*f15 y*f14 f13 yy*f11 xy*f9|17",
    // The first equation of Painleve, u_xx = 6*u^2 + x.
    b"xu|1xu 2xu|f1_uu;f2_uu -2*f1_xu;2*f2_xu -f1_xx -18*uu*f1_u -3*x*f1_u;f2_xx 6*uu*f2_u x*f2_u -12*uu*f1_x \
    -2*x*f1_x -12*u*f2 -f1|f1;f2|3\n\
    Absent|2xu 3x 4x|f2_uu -2*f4_x;u*f4_xx f3_xx -2*f2_xu 18*uu*f4 3*x*f4;f2_xx -12*uuu*f4_x -2*xu*f4_x \
    -12*uu*f3_x -2*x*f3_x 6*uu*f2_u x*f2_u -u*f4 -f3 -12*u*f2|u*f4 f3;f2|5\n\
    Integrate|3x 4x 5x 6x|3*u*f4_xx -f3_xx 2*f6_x -18*uu*f4 -3*x*f4;uu*f4_xxx u*f6_xx f5_xx -12*uuu*f4_x \
    -12*uu*f3_x -2*x*f3_x -6*uu*f6 x*f6 -12*u*f5 -u*f4 -f3|u*f4 f3;uu*f4_x u*f6 f5|7\n\
    Split|3x 4x 5x 6x|f4;f4_xx;f3_xx -2*f6_x 3*x*f4;uu*f4_xxx u*f6_xx f5_xx -12*uuu*f4_x -12*uu*f3_x -2*x*f3_x \
    -6*uu*f6 x*f6 -12*u*f5 -u*f4 -f3|u*f4 f3;uu*f4_x u*f6 f5|7\n\
    Zero|3x 5x 6x|f3_xx -2*f6_x;u*f6_xx f5_xx -12*uu*f3_x -2*x*f3_x -6*uu*f6 x*f6 -12*u*f5 -f3|f3;u*f6 f5|7\n\
    Split|3x 5x 6x|2*f3_x f6;f3_xx -2*f6_x;f6_xx -12*f5;f5_xx -2*x*f3_x x*f6 -f3|f3;u*f6 f5|7\n\
    Substitute|3x 5x|f3_xx;f3_xxx 6*f5;f5_xx -4*x*f3_x -f3|f3;-2*u*f3_x f5|7\n\
    Absent|5x 7 8|f5;f5_xx -5*x*f8 -f7|x*f8 f7;-2*u*f8 f5|9\n\
    Zero|7 8|5*x*f8 f7|x*f8 f7;-2*u*f8|9\n\
    Split|7 8|f7;f8|x*f8 f7;-2*u*f8|9\n\
    Zero|8|f8|x*f8;-2*u*f8|9\n\
    Zero|||;|9",
    // What stands still, u_t = 0.
    b"xtu|1xtu 2xtu 3xtu|f1_t;f3_t|f1;f2;f3|4\n\
    Absent|2xtu 3xtu 4xu|f3_t|f4;f2;f3|5\n\
    Absent|2xtu 4xu 5xu||f4;f2;f5|6",
    // The heat equation, u_t = u_xx.
    b"xtu|1xtu 2xtu 3xtu|f2_u;f2_x;f1_uu;f2_uu;f2_xu f1_u;f3_uu -2*f1_xu;f3_xx -f3_t;f2_xx -f2_t 2*f1_x;2*f3_xu \
    -f1_xx f1_t|f1;f2;f3|4\n\
    Absent|1xtu 3xtu 4xt|f1_u;f4_x;f1_uu;f3_uu -2*f1_xu;f3_xx -f3_t;2*f3_xu -f1_xx f1_t;f4_xx -f4_t 2*f1_x|f1;\
    f4;f3|5\n\
    Absent|3xtu 4xt 5xt|f4_x;f3_uu;f3_xx -f3_t;f4_xx 2*f5_x -f4_t;f5_xx -2*f3_xu -f5_t|f5;f4;f3|6\n\
    Absent|3xtu 5xt 6t|f3_uu;f6_t -2*f5_x;f3_xx -f3_t;f5_xx -2*f3_xu -f5_t|f5;f6;f3|7\n\
    Absent|5xt 6t 7xt 8xt|f6_t -2*f5_x;f5_xx -2*f8_x -f5_t;u*f8_xx f7_xx -u*f8_t -f7_t|f5;f6;u*f8 f7|9\n\
    Split|5xt 6t 7xt 8xt|f6_t -2*f5_x;f7_xx -f7_t;f8_xx -f8_t;f5_xx -2*f8_x -f5_t|f5;f6;u*f8 f7|9\n\
    Integrate|6t 7xt 8xt 9t|f7_xx -f7_t;f8_xx -f8_t;x*f6_tt f9_t 4*f8_x|x*f6_t f9;2*f6;2*u*f8 2*f7|10\n\
    Integrate|6t 7xt 9t 10t|f7_xx -f7_t;xx*f6_ttt 2*x*f9_tt -2*f6_tt -f10_t|4*x*f6_t 4*f9;8*f6;-xxu*f6_tt \
    -2*xu*f9_t u*f10 8*f7|11\n\
    Split|6t 7xt 9t 10t|f9_tt;f6_ttt;2*f6_tt f10_t;f7_xx -f7_t|4*x*f6_t 4*f9;8*f6;-xxu*f6_tt -2*xu*f9_t u*f10 \
    8*f7|11\n\
    Absent|6t 7xt 10t 11 12|f6_ttt;2*f6_tt f10_t;f7_xx -f7_t|4*x*f6_t 4*t*f12 4*f11;8*f6;-xxu*f6_tt -2*xu*f12 \
    u*f10 8*f7|13\n\
    Absent|7xt 10t 11 12 13 14 15|f10_t 4*f15;f7_xx -f7_t|8*xt*f15 4*x*f14 4*t*f12 4*f11;8*tt*f15 8*t*f14 8*f13;\
    -2*xxu*f15 -2*xu*f12 u*f10 8*f7|16\n\
    Integrate|7xt 11 12 13 14 15 16|f7_xx -f7_t|8*xt*f15 4*x*f14 4*t*f12 4*f11;8*tt*f15 8*t*f14 8*f13;u*f16 \
    -2*xxu*f15 -4*tu*f15 -2*xu*f12 8*f7|17",
    // The equation of Laplace, u_xx + u_yy = 0.
    b"xyu|1xyu 2xyu 3xyu|f1_u;f2_u;f1_uu;f2_uu;f2_y -f1_x;f2_x f1_y;f2_xu f1_yu;f3_uu -2*f1_xu;f3_uu -2*f2_yu;\
    f3_xx f3_yy;2*f3_yu -f2_xx -f2_yy;2*f3_xu -f1_xx -f1_yy|f1;f2;f3|4\n\
    Absent|2xyu 3xyu 4xy|f2_u;f2_uu;f2_xu;f3_uu;f4_y f2_x;f4_x -f2_y;f3_uu -2*f2_yu;f3_xx f3_yy;2*f3_yu -f2_xx \
    -f2_yy;f4_xx f4_yy -2*f3_xu|f4;f2;f3|5\n\
    Absent|3xyu 4xy 5xy|f3_uu;f5_y -f4_x;f5_x f4_y;f3_xx f3_yy;f4_xx f4_yy -2*f3_xu;f5_xx f5_yy -2*f3_yu|f4;f5;\
    f3|6\n\
    Absent|4xy 5xy 6xy 7xy|f5_y -f4_x;f5_x f4_y;f4_xx f4_yy -2*f7_x;f5_xx f5_yy -2*f7_y;u*f7_xx u*f7_yy f6_xx \
    f6_yy|f4;f5;u*f7 f6|8\n\
    Split|4xy 5xy 6xy 7xy|f5_y -f4_x;f5_x f4_y;f6_xx f6_yy;f7_xx f7_yy;f4_xx f4_yy -2*f7_x;f5_xx f5_yy -2*f7_y|\
    f4;f5;u*f7 f6|8\n\
    Reduce|4xy 5xy 6xy 7xy|f7_y;f5_y -f4_x;f5_x f4_y;f6_xx f6_yy;f7_xx f7_yy;f4_xx f4_yy -2*f7_x|f4;f5;u*f7 f6|\
    8\n\
    Absent|4xy 5xy 6xy 8x|f8_xx;f5_y -f4_x;f5_x f4_y;f6_xx f6_yy;f4_xx f4_yy -2*f8_x|f4;f5;u*f8 f6|9\n\
    Absent|4xy 5xy 6xy 9 10|f5_y -f4_x;f5_x f4_y;f6_xx f6_yy;f4_xx f4_yy -2*f10|f4;f5;xu*f10 u*f9 f6|11\n\
    Cross|4xy 5xy 6xy 9 10|f10;f5_y -f4_x;f5_x f4_y;f6_xx f6_yy;f4_xx f4_yy -2*f10|f4;f5;xu*f10 u*f9 f6|11\n\
    Zero|4xy 5xy 6xy 9|f5_y -f4_x;f5_x f4_y;f4_xx f4_yy;f6_xx f6_yy|f4;f5;u*f9 f6|11",
    // The equation of Korteweg and de Vries, u_t + u*u_x + u_xxx = 0.
    b"xtu|1xtu 2xtu 3xtu|f1_u;f2_u;f2_x;f1_uu;f2_uu;f2_xu;f2_xx;f1_uuu;f2_uuu;f2_xuu;f3_uu -3*f1_xu;f3_xu -f1_xx;\
    f2_xxu -f1_u;f3_uuu -3*f1_xuu;f3_xuu -f1_xxu u*f1_u;f3_xxx u*f3_x f3_t;f2_xxx u*f2_x f2_t -3*f1_x;3*f3_xxu \
    -f1_xxx 2*u*f1_x -f1_t f3|f1;f2;f3|4\n\
    Absent|2xtu 3xtu 4xt|f2_u;f2_x;f2_uu;f2_xu;f2_xx;f3_uu;f2_uuu;f2_xuu;f2_xxu;f3_uuu;f3_xuu;f4_xx -f3_xu;\
    f3_xxx u*f3_x f3_t;f2_xxx -3*f4_x u*f2_x f2_t;f4_xxx -3*f3_xxu -2*u*f4_x f4_t -f3|f4;f2;f3|5\n\
    Absent|3xtu 4xt 5xt|f5_x;f3_uu;f5_xx;f3_uuu;f3_xuu;f4_xx -f3_xu;f3_xxx u*f3_x f3_t;f5_xxx u*f5_x f5_t \
    -3*f4_x;f4_xxx -3*f3_xxu -2*u*f4_x f4_t -f3|f4;f5;f3|6\n\
    Absent|3xtu 4xt 6t|f3_uu;f3_uuu;f3_xuu;f6_t -3*f4_x;f4_xx -f3_xu;f3_xxx u*f3_x f3_t;f4_xxx -3*f3_xxu \
    -2*u*f4_x f4_t -f3|f4;f6;f3|7\n\
    Absent|4xt 6t 7xt 8xt|f6_t -3*f4_x;f4_xx -f8_x;f4_xxx -3*f8_xx -2*u*f4_x f4_t -u*f8 -f7;u*f8_xxx f7_xxx \
    uu*f8_x u*f8_t u*f7_x f7_t|f4;f6;u*f8 f7|9\n\
    Split|4xt 6t 7xt 8xt|2*f4_x f8;f6_t -3*f4_x;f4_xx -f8_x;f4_xxx -3*f8_xx f4_t -f7;u*f8_xxx f7_xxx uu*f8_x \
    u*f8_t u*f7_x f7_t|f4;f6;u*f8 f7|9\n\
    Split|4xt 6t 7xt 8xt|f8_x;2*f4_x f8;f6_t -3*f4_x;f4_xx -f8_x;f7_xxx f7_t;f8_xxx f8_t f7_x;f4_xxx -3*f8_xx \
    f4_t -f7|f4;f6;u*f8 f7|9\n\
    Absent|4xt 6t 7xt 9t|f4_xx;2*f4_x f9;f6_t -3*f4_x;f9_t f7_x;f7_xxx f7_t;f4_xxx f4_t -f7|f4;f6;u*f9 f7|10\n\
    Absent|6t 7xt 9t 10t 11t|2*f11 f9;f6_t -3*f11;f9_t f7_x;f7_xxx f7_t;x*f11_t f10_t -f7|x*f11 f10;f6;u*f9 f7|\
    12\n\
    Substitute|6t 7xt 9t 10t|2*f6_t 3*f9;f9_t f7_x;f7_xxx f7_t;2*f10_t -x*f9_t -2*f7|2*f10 -x*f9;2*f6;2*u*f9 \
    2*f7|12\n\
    Substitute|6t 7xt 10t|2*f6_tt -3*f7_x;f7_xxx f7_t;x*f6_tt 3*f10_t -3*f7|x*f6_t 3*f10;3*f6;-2*u*f6_t 3*f7|\
    12\n\
    Substitute|6t 10t|f6_tt;x*f6_ttt 3*f10_tt|x*f6_t 3*f10;3*f6;x*f6_tt 3*f10_t -2*u*f6_t|12\n\
    Absent|10t 12 13|f10_tt|x*f13 3*f10;3*t*f13 3*f12;3*f10_t -2*u*f13|14\n\
    Absent|12 13 14 15||3*t*f15 3*f14 x*f13;3*t*f13 3*f12;3*f15 -2*u*f13|16",
];

/// Small systems over two to four variables, in which each rule has steps.
pub const SMALL: [&[u8]; 13] = [
    b"xu|1x 2x|f1_xx u*f2_x f1|f1;f2|3\n\
    Split|1x 2x|f2_x;f1_xx f1|f1;f2|3\n\
    Lowest|1x 2x|f1;f2_x|f1;f2|3\n\
    Zero|2x|f2_x|;f2|3\n\
    Absent|3||;f3|4",
    b"xu|1x 2u|f2_u f1_x;x*f2_uu f1|f1;f2|3\n\
    Isolate|1x 2u|f1_xx;f2_u f1_x;x*f2_uu f1|f1;f2|3\n\
    Absent|2u 3 4|f2_u f4;x*f2_uu x*f4 f3|x*f4 f3;f2|5\n\
    Split|2u 3 4|f3;f2_u f4;f2_uu f4|x*f4 f3;f2|5\n\
    Zero|2u 4|f2_u f4;f2_uu f4|x*f4;f2|5\n\
    Integrate|4 5|f4|x*f4;f5 -u*f4|6\n\
    Zero|5||;f5|6",
    b"xu|1xu 2 3x|f3_x f1;f3_x 2*x*f2;f3_xx -2*u*f3_x -2*u*f1_x|f1;f2|4\n\
    Substitute|2 3x|f3_x 2*x*f2;2*u*f3_xx f3_xx -2*u*f3_x|-f3_x;f2|4\n\
    Split|2 3x|f3_xx;f3_x 2*x*f2;f3_xx -f3_x|-f3_x;f2|4\n\
    Lowest|2 3x|f3_x;f3_xx;f3_x 2*x*f2|-f3_x;f2|4\n\
    Absent|2 4|f2|;f2|5\n\
    Zero|4||;|5",
    b"xu|1xu|f1_xu;3*xx*f1_x f1_x -uu*f1;2*f1_xx f1_x xx*f1_u|f1;|2\n\
    Absent|2u 3x|2*f3_xx f3_x xx*f2_u;3*xx*f3_x f3_x -uu*f3 -uu*f2|f3 f2;|4\n\
    Isolate|2u 3x|f2_uu;2*f3_xx f3_x xx*f2_u;3*xx*f3_x f3_x -uu*f3 -uu*f2|f3 f2;|4\n\
    Absent|3x 4 5|2*f3_xx f3_x xx*f5;3*xx*f3_x f3_x -uuu*f5 -uu*f4 -uu*f3|u*f5 f4 f3;|6\n\
    Split|3x 4 5|f5;f3_x;f4 f3;2*f3_xx f3_x xx*f5|u*f5 f4 f3;|6\n\
    Zero|3x 4|f3_x;f4 f3;2*f3_xx f3_x|f4 f3;|6\n\
    Lowest|3x 4|f3_x;f4 f3|f4 f3;|6\n\
    Absent|4 6|f6 f4|f6 f4;|7\n\
    Substitute|4||;|7",
    b"xu|1xu 2x 3x|uu*f2_xx -f3_x;f1_u 2*f2 -2*f1;2*f2_x -f1_x -x*f1|f1;f2|4\n\
    Split|1xu 2x 3x|f3_x;f2_xx;f1_u 2*f2 -2*f1;2*f2_x -f1_x -x*f1|f1;f2|4\n\
    Absent|1xu 2x 4|f2_xx;f1_u 2*f2 -2*f1;2*f2_x -f1_x -x*f1|f1;f2|5\n\
    Absent|1xu 4 5 6|f1_x -2*f6 x*f1;f1_u 2*x*f6 2*f5 -2*f1|f1;x*f6 f5|7\n\
    Cross|1xu 4 5 6|xx*f6 -f6 x*f5;f1_x -2*f6 x*f1;f1_u 2*x*f6 2*f5 -2*f1|f1;x*f6 f5|7\n\
    Split|1xu 4 5 6|f5;f6;f1_x -2*f6 x*f1;f1_u 2*x*f6 2*f5 -2*f1|f1;x*f6 f5|7\n\
    Zero|1xu 4 6|f6;f1_u 2*x*f6 -2*f1;f1_x -2*f6 x*f1|f1;x*f6|7\n\
    Zero|1xu 4|f1_u -2*f1;f1_x x*f1|f1;|7\n\
    Lowest|1xu 4|f1;f1_x x*f1|f1;|7\n\
    Zero|4||;|7",
    b"xtu|1xtu 2|f1_x f1_t;x*f1_t f2 f1|f1;f2;|3\n\
    Reduce|1xtu 2|x*f1_t f2 f1;x*f1_x -f2 -f1|f1;f2;|3\n\
    Isolate|1xtu 2|f1_xx;x*f1_t f2 f1;x*f1_x -f2 -f1|f1;f2;|3\n\
    Absent|2 3tu 4tu|f3 f2;xx*f4_t x*f3_t x*f4 f3 f2|x*f4 f3;f2;|5\n\
    Split|2 3tu 4tu|f4_t;f3 f2;f3_t f4|x*f4 f3;f2;|5\n\
    Absent|2 3tu 5u|f3 f2;f3_t f5|x*f5 f3;f2;|6\n\
    Substitute|2 5u|f5|x*f5 -f2;f2;|6\n\
    Zero|2||-f2;f2;|6",
    b"xtu|1tu 2xtu|x*f1_tu tt*f1_t;2*u*f2_xt xx*f2;u*f2_t -f2_u 3*u*f1|f1;f2;|3\n\
    Split|1tu 2xtu|f1_t;f1_tu;2*u*f2_xt xx*f2;u*f2_t -f2_u 3*u*f1|f1;f2;|3\n\
    Absent|2xtu 3u|2*u*f2_xt xx*f2;u*f2_t -f2_u 3*u*f3|f3;f2;|4\n\
    Reduce|2xtu 3u|2*f2_xu xx*f2;u*f2_t -f2_u 3*u*f3|f3;f2;|4\n\
    Cross|2xtu 3u|3*uu*f3 -f2;2*f2_xu xx*f2;u*f2_t -f2_u 3*u*f3|f3;f2;|4\n\
    Substitute|3u|f3;u*f3_u f3|f3;3*uu*f3;|4\n\
    Zero|||;;|4",
    b"xtu|1xtu 2u|u*f2_uu f2_u;tt*f2_uu x*f1|f1;f2;|3\n\
    Isolate|1xtu 2u|f1_ttt;u*f2_uu f2_u;tt*f2_uu x*f1|f1;f2;|3\n\
    Absent|2u 3xu 4xu 5xu|u*f2_uu f2_u;tt*f2_uu xtt*f5 xt*f4 x*f3|tt*f5 t*f4 f3;f2;|6\n\
    Split|2u 3xu 4xu 5xu|f3;f4;f2_uu x*f5;u*f2_uu f2_u|tt*f5 t*f4 f3;f2;|6\n\
    Zero|2u 4xu 5xu|f4;f2_uu x*f5;u*f2_uu f2_u|tt*f5 t*f4;f2;|6\n\
    Zero|2u 5xu|f2_uu x*f5;u*f2_uu f2_u|tt*f5;f2;|6\n\
    Reduce|2u 5xu|f2_u -xu*f5;u*f2_uu f2_u|tt*f5;f2;|6\n\
    Reduce|2u 5xu|f2_u -xu*f5;u*f5_u 2*f5|tt*f5;f2;|6\n\
    Foreign|2u 5xu|f2_u -xu*f5;u*f5_u 2*f5;x*f5_x f5|tt*f5;f2;|6",
    b"xtu|1xtu 2xt|u*f1_u -f1;2*f2_xt uu*f1_tu -f2|f1;f2;|3\n\
    Reduce|1xtu 2xt|u*f1_u -f1;2*f2_xt u*f1_t -f2|f1;f2;|3\n\
    Foreign|1xtu 2xt|f1_t;u*f1_u -f1;2*f2_xt u*f1_t -f2|f1;f2;|3\n\
    Absent|2xt 3xu|u*f3_u -f3;2*f2_xt -f2|f3;f2;|4\n\
    Lowest|2xt 3xu|f2;u*f3_u -f3|f3;f2;|4\n\
    Zero|3xu|u*f3_u -f3|f3;;|4",
    b"xtu|1xu 2xtu 3xt|f2_t -xx*f2_u;f2_xt -x*f2|f1;f2;f3|4\n\
    Reduce|1xu 2xtu 3xt|f2_t -xx*f2_u;x*f2_xu 2*f2_u -f2|f1;f2;f3|4\n\
    Cross|1xu 2xtu 3xt|f2_uu;f2_t -xx*f2_u;x*f2_xu 2*f2_u -f2|f1;f2;f3|4\n\
    Absent|1xu 3xt 4xt 5xt|u*f5_t f4_t -xx*f5;x*f5_x -u*f5 2*f5 -f4|f1;u*f5 f4;f3|6\n\
    Split|1xu 3xt 4xt 5xt|f5_t;f4_t -xx*f5;x*f5_x -u*f5 2*f5 -f4|f1;u*f5 f4;f3|6\n\
    Absent|1xu 3xt 4xt 6x|f4_t -xx*f6;x*f6_x -u*f6 2*f6 -f4|f1;u*f6 f4;f3|7\n\
    Split|1xu 3xt 4xt 6x|f6;f4_t -xx*f6;x*f6_x 2*f6 -f4|f1;u*f6 f4;f3|7\n\
    Zero|1xu 3xt 4xt|f4;f4_t|f1;f4;f3|7\n\
    Zero|1xu 3xt||f1;;f3|7",
    b"xytu|1y 2t|f2 -2*f1;f2_tt f1_yy|f1;f2;;|3\n\
    Isolate|1y 2t|f1_y;f2 -2*f1;f2_tt f1_yy|f1;f2;;|3\n\
    Absent|2t 3|f2_tt;2*f3 -f2|f3;f2;;|4\n\
    Absent|3 4 5|t*f5 f4 -2*f3|f3;t*f5 f4;;|6\n\
    Split|3 4 5|f5;f4 -2*f3|f3;t*f5 f4;;|6\n\
    Zero|3 4|f4 -2*f3|f3;f4;;|6\n\
    Substitute|3||f3;2*f3;;|6",
    b"xytu|1xyt 2xyt|f1_xy f1;f2_xt -f2_yy;f2_tt f1_y 3*f1|f1;f2;;|3\n\
    Lowest|1xyt 2xyt|f1;f2_xt -f2_yy;f2_tt f1_y 3*f1|f1;f2;;|3\n\
    Zero|2xyt|f2_tt;f2_xt -f2_yy|;f2;;|3\n\
    Absent|3xy 4xy|t*f4_yy f3_yy -f4_x|;t*f4 f3;;|5\n\
    Split|3xy 4xy|f4_yy;f3_yy -f4_x|;t*f4 f3;;|5\n\
    Absent|3xy 5x 6x|f3_yy -y*f6_x -f5_x|;yt*f6 t*f5 f3;;|7\n\
    Integrate|5x 6x 7x 8x||;yyy*f6_x 3*yy*f5_x y*f8 f7 6*yt*f6 6*t*f5;;|9",
    b"xytu|1xyt 2y|f2_yy 3*f2_y -2*u*f1|f1;f2;;|3\n\
    Split|1xyt 2y|f1;f2_yy 3*f2_y|f1;f2;;|3\n\
    Zero|2y|f2_yy 3*f2_y|;f2;;|3\n\
    Lowest|2y|f2_y|;f2;;|3\n\
    Absent|3||;f3;;|4",
];
